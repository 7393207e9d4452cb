//! The file of the parameters.

ghost use Rattle.std.specs.Prelude.{◌≡◌, ◌≢◌, ◌⊎◌, ◌≤◌, IsTrue, IfOk, IfErr, Ok, Err};
ghost use Rattle.nb_format.specs.declared.params_error.ParamsError.{ParamsError};
ghost use Rattle.nb_format.specs.ParamsText.{params_of};
ghost use Rattle.nb_model.specs.Valid.{AreInRange};
ghost use Rattle.nb_host.specs.Crashes.{Stays};
ghost use Rattle.nb_host.specs.Meaning.{Ran};
ghost use Rattle.nb_engine.specs.declared.refusal.Refusal.TheVariants as refusal;
ghost use Rattle.nb_engine.specs.Start.{HasNoParams, IsOfParameters};
ghost use Rattle.nb_engine.specs.Files.{params_file};
ghost use Rattle.nb_engine.specs.Refusal.{NeedsNoCause};

use crate::files::PARAMS_FILE;
use crate::refusal::Refusal;
use nb_format::{MOST_TEXT, ParamsError, read_params};
use nb_host::Host;
use nb_model::Params;
use std::alloc::Global;

/// Reads the parameters. It only reads. A text that is too long is refused by its length alone.
pub fn parameters<H: Host>(alloc: Global, host: &mut H) -> Result<Params, Refusal>
    ensures in_range { IfOk result AreInRange }
    ensures spelled { IfOk result (λ params. IsTrue H.meaning.tells
        → params_of ((H.meaning.contents host.old).file params_file) ≡ Ok params) }
    ensures cause { IfErr result (λ why. IsTrue H.meaning.tells → NeedsNoCause why
        ⊎ ((error : ParamsError) × HasNoParams (H.meaning.contents host.old).file error
        × (why ≡ refusal.Params error))) }
    ensures refusals { IfErr result IsOfParameters }
    ensures ran { Ran H.meaning Refusal.Device Stays host.old host.new result }
{
    let length = host.len(PARAMS_FILE)?;
    if length > MOST_TEXT as u64 {
        return Err(Refusal::Params(ParamsError::Long));
    }
    let mut text = vec![in alloc; 0; length as usize]?;
    let found = host.read_at(PARAMS_FILE, 0, &mut text)?;
    Ok(read_params(&text[..found])?)
}
