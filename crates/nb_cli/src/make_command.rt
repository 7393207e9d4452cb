//! The command `make`: parameters and bodies of a seed, for examples and for measures.

ghost use Rattle.std.specs.Prelude.{◌≡◌, ◌≢◌, ◌⊎◌, ◌≤◌, [], IsTrue, IfErr, OnOk};
ghost use Rattle.nb_model.specs.Limits.{most_bodies};
ghost use Rattle.nb_model.specs.Valid.{AreInRange};
ghost use Rattle.nb_host.specs.Crashes.{Stays};
ghost use Rattle.nb_host.specs.Image.{FileBecomes};
ghost use Rattle.nb_host.specs.Meaning.{Over, Ran, RanSyncing, IsDurable};
ghost use Rattle.nb_format.specs.ParamsText.{text_without_edge};
ghost use Rattle.nb_format.specs.Images.{IsWritten};
ghost use Rattle.nb_format.specs.Writer.{IsFinishedAs};
ghost use Rattle.nb_engine.specs.Files.{params_file, init_file};
ghost use Rattle.nb_engine.specs.Refusal.{NeedsNoCause};
ghost use Rattle.nb_cli.specs.OnceAnswer.{BecomesAny};
ghost use Rattle.nb_cli.specs.Make.{made_bodies, IsMakeReady, IsMakeRefused, IsOfMake, IsMadeFrom, MakeLeads, make_syncs};

use crate::generator::{Generator, made_params};
use nb_engine::{INIT_FILE, PARAMS_FILE, Refusal};
use nb_format::{Fresh, param_line};
use nb_host::{Host, HostError};
use nb_model::Params;

/// How many parameters are numbers, each of which has a line.
const NUMBERS: u8 = 6;

/// The time of the bodies that are made, in ticks.
pub(crate) const MADE_TIME: u64 = 0;

/// Makes parameters and so many bodies of a seed, where neither of the two files holds anything. It says
/// nothing. The parameters are durable before the snapshot is finished.
pub fn make<H: Host>(host: &mut H, seed: u64, count: u64) -> Result<(), Refusal>
    requires count { count ≤ most_bodies }
    requires durable { IsDurable H.meaning host.old }

    // What each answer says of the files as they were.
    ensures done { OnOk result (IsTrue H.meaning.tells
        → IsMadeFrom seed count (H.meaning.contents host.old) (H.meaning.contents host.new)) }
    ensures cause { IfErr result (λ why. IsTrue H.meaning.tells
        → NeedsNoCause why ⊎ IsMakeRefused (H.meaning.contents host.old).file why) }
    ensures refusals { IfErr result IsOfMake }

    // What it leaves at each moment: all as it was, until it comes so far as to write.
    ensures durable { OnOk result (IsDurable H.meaning host.new) }
    ensures unsynced { IfErr result (λ why. (NeedsNoCause why → ⊥)
        → H.meaning.tally host.new ≡ H.meaning.tally host.old) }
    ensures ran { RanSyncing H.meaning make_syncs Refusal.Device (MakeLeads seed count) host.old host.new result }
{
    find_neither(host)?;
    write_params(host, &made_params(count))?;
    host.sync()?;
    write_bodies(host, seed, count)?;
    Ok(())
}

/// Finds that neither of the two files holds anything. It only reads.
pub(crate) fn find_neither<H: Host>(host: &mut H) -> Result<(), Refusal>
    ensures neither { OnOk result (IsTrue H.meaning.tells → IsMakeReady (H.meaning.contents host.old).file) }
    ensures cause { IfErr result (λ why. IsTrue H.meaning.tells
        → NeedsNoCause why ⊎ IsMakeRefused (H.meaning.contents host.old).file why) }
    ensures refusals { IfErr result IsOfMake }
    ensures ran { Ran H.meaning Refusal.Device Stays host.old host.new result }
{
    if host.len(PARAMS_FILE)? != 0 || host.len(INIT_FILE)? != 0 {
        return Err(Refusal::InitThere);
    }
    Ok(())
}

/// Writes the lines of the six parameters that are numbers, in their order, into an empty file. After a
/// refusal it may be in part.
fn write_params<H: Host>(host: &mut H, params: &Params) -> Result<(), HostError>
    requires { AreInRange params.now }
    ensures written { OnOk result (IsTrue H.meaning.tells
        → (H.meaning.contents host.old).file params_file ≡ []
        → (H.meaning.contents host.new).file params_file ≡ text_without_edge params.now) }
    ensures ran { Ran H.meaning HostError.Fault (FileBecomes params_file BecomesAny) host.old host.new result }
{
    let mut end = 0;
    for which in 0..NUMBERS {
        let line = param_line(params, which);
        host.write_at(PARAMS_FILE, end, line.bytes())?;
        end += line.bytes().len() as u64;
    }
    Ok(())
}

/// Writes the snapshot of so many bodies of a seed into an unfinished file, which stays so until all of it is
/// there.
fn write_bodies<H: Host>(host: &mut H, seed: u64, count: u64) -> Result<(), HostError>
    requires { count ≤ most_bodies }
    ensures written { OnOk result (Over H.meaning
        (FileBecomes init_file (IsFinishedAs (made_bodies seed count) 0)) host.old host.new) }
    ensures durable { OnOk result (IsDurable H.meaning host.new) }
    ensures ran { RanSyncing H.meaning 4 HostError.Fault
        (FileBecomes init_file (IsWritten (made_bodies seed count) 0)) host.old host.new result }
{
    let mut filling = Fresh::new(INIT_FILE, count, MADE_TIME).begin(host)?;
    let mut generator = Generator::new(seed);
    for _ in 0..count {
        filling = filling.add(host, &generator.next_body())?;
    }
    filling.close(host)?;
    Ok(())
}
