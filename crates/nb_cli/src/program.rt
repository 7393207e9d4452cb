//! The top call, which does all that the program does.

ghost use Rattle.std.specs.Prelude.{◌≡◌, ◌≢◌, ◌⊎◌, ℕ, ◌↔◌, IsTrue, OnOk, IfErr, Err, map, Contains};
ghost use Rattle.nb_host.specs.Crashes.{EverySince};
ghost use Rattle.nb_host.specs.Image.{Image};
ghost use Rattle.nb_host.specs.Meaning.{Leads, IsDurable};
ghost use Rattle.nb_engine.specs.Refusal.{NeedsNoCause};
ghost use Rattle.nb_engine.specs.Represents.{IsSoundImage};
ghost use Rattle.nb_cli.specs.declared.stop.Stop.{Stop};
ghost use Rattle.nb_cli.specs.declared.words.Job.{Job};
ghost use Rattle.nb_cli.specs.declared.words.Job.TheVariants as job;
ghost use Rattle.nb_engine.specs.declared.refusal.Refusal.TheVariants as refusal;
ghost use Rattle.nb_cli.specs.Words.{IsJob, IsPaced, IsNoCommand};
ghost use Rattle.nb_cli.specs.Worlds.{ExtendsOrNot};
ghost use Rattle.nb_cli.specs.Stop.{HasRefusalLine, IsSayable, IsWithoutCause};
ghost use Rattle.nb_cli.specs.Answer.{statuses, Yields, ComesWhere, ComesByCause, HasCause, HasDamage, IsDamagedBy, IsJobReady, IsJobRefused, IsJobDamaged, IsJobDone, LeavesAll, Touches, CountsJob, CountsWords, job_syncs, HasBegun, HasBegunOrNot, JobBegins, JobBeginsOrNot, HasDone, BringsUp, BringsUpWords, WasReported, WasRefused};

use crate::demo_command::demo;
use crate::make_command::make;
use crate::once_command::once;
use crate::show_command::folder_text;
use crate::status::DONE;
use crate::stop::Stop;
use crate::words::{Job, WordsError, read_words};
use nb_engine::{Pace, Refusal, go, law_acknowledged, resume, show, start};
use nb_format::{done_line, made_line, once_line, started_line};
use nb_host::{Channel, Host};
use std::alloc::Global;

/// Does all that the program does, in the files of the host, and answers the exit status. `words` are those
/// after the program's name.
pub fn nbody<H: Host>(alloc: Global, words: &[&str], host: &mut H) -> u8
    ensures status { Contains statuses result }

    // When each status comes.
    ensures words { ComesWhere 1 result (IsNoCommand (map (λ w. w.now) words.now)) }
    ensures causes { (status : ℕ) → IsTrue H.meaning.tells → status ≢ 0 → (Yields status → ⊥)
        → ComesByCause (map (λ w. w.now) words.now) (H.meaning.contents host.old).file status result }
    ensures complete { (job : Job) → IsJob (map (λ w. w.now) words.now) job
        → IsTrue H.meaning.tells → IsJobReady (H.meaning.contents host.old).file job
        → (result ≡ 0) ⊎ Yields result
        ⊎ IsDamagedBy (map (λ w. w.now) words.now) (H.meaning.contents host.old).file result }

    // What the command does, and what a refusal is and leaves.
    ensures done { result ≡ 0 → HasDone H.meaning (map (λ w. w.now) words.now) host.old host.new }
    ensures refused { result ≢ 0 → WasRefused H.meaning (map (λ w. w.now) words.now) host.old host.new result }
    ensures untouched { (why : Stop) → IsTrue H.meaning.tells
        → HasCause (map (λ w. w.now) words.now) (H.meaning.contents host.old).file why
        → LeavesAll (map (λ w. w.now) words.now) (H.meaning.contents host.old) (H.meaning.contents host.new) }

    // What reads, and what a crash leaves, at each moment: a folder that represents a run goes on doing so, and what
    // stands in it stays.
    ensures leads { Leads H.meaning (Touches H.meaning.crashes.is_honest (map (λ w. w.now) words.now)
        (H.meaning.contents host.old).file) host.old host.new }
    ensures sound { ((image : Image) → IsTrue H.meaning.crashes.is_honest
        → H.meaning.crashes.may_leave host.old image → IsSoundImage image)
        → EverySince H.meaning.crashes IsSoundImage host.old host.new }
    ensures extends { (job : Job) → IsJob (map (λ w. w.now) words.now) job
        → IsSoundImage (H.meaning.contents host.old) → ExtendsOrNot H.meaning job host.old host.new result }
{
    law_acknowledged();
    match run(alloc, words, host) {
        Ok(()) => DONE,
        Err(why) => say_why(host, why),
    }
}

/// Does what the words ask for, and says its text on Out. It says nothing on Err.
fn run<H: Host>(alloc: Global, words: &[&str], host: &mut H) -> Result<(), Stop>
    ensures words { result ≡ Err Stop.Words → IsNoCommand (map (λ w. w.now) words.now) }
    ensures no_words { IsNoCommand (map (λ w. w.now) words.now) → (result ≡ Err Stop.Words)
        ⊎ (result ≡ Err (Stop.Refused refusal.NoMemory)) }
    ensures cause { IfErr result (λ why. IsTrue H.meaning.tells
        → HasCause (map (λ w. w.now) words.now) (H.meaning.contents host.old).file why
        ⊎ HasDamage (map (λ w. w.now) words.now) (H.meaning.contents host.old).file why
        ⊎ IsWithoutCause why) }
    ensures sayable { IfErr result IsSayable }
    ensures done { OnOk result (IsTrue H.meaning.tells
        → (job : Job) × IsJob (map (λ w. w.now) words.now) job
        × IsJobDone H.meaning.crashes.is_honest job (H.meaning.contents host.old) (H.meaning.contents host.new)) }
    ensures durable { OnOk result (IsDurable H.meaning host.new) }
    ensures begun { OnOk result (HasBegun H.meaning (map (λ w. w.now) words.now) host.old host.new) }
    ensures brought { IfErr result (BringsUpWords H.meaning (map (λ w. w.now) words.now) host.old host.new) }
    ensures run { IfErr result (HasBegunOrNot H.meaning (map (λ w. w.now) words.now) host.old host.new) }
    ensures counts { CountsWords H.meaning (map (λ w. w.now) words.now) host.old host.new result }
{
    match read_words(alloc, words) {
        Ok(job) => match run_job(alloc, host, job) {
            Ok(()) => Ok(()),
            Err(refusal) => Err(Stop::Refused(refusal)),
        },
        Err(WordsError::Refused) => Err(Stop::Words),
        Err(WordsError::NoMemory) => Err(Stop::Refused(Refusal::NoMemory)),
    }
}

/// Does the command, and says its text on Out.
fn run_job<H: Host>(alloc: Global, host: &mut H, job: Job) -> Result<(), Refusal>
    requires { IsPaced job }
    ensures cause { IfErr result (λ why. IsTrue H.meaning.tells → NeedsNoCause why
        ⊎ IsJobRefused (H.meaning.contents host.old).file job why
        ⊎ IsJobDamaged (H.meaning.contents host.old).file job why) }
    ensures given { IfErr result HasRefusalLine }
    ensures done { OnOk result (IsTrue H.meaning.tells → IsJobDone H.meaning.crashes.is_honest job
        (H.meaning.contents host.old) (H.meaning.contents host.new)) }
    ensures durable { OnOk result (IsDurable H.meaning host.new) }
    ensures begun { OnOk result (JobBegins H.meaning job host.old host.new) }
    ensures brought { IfErr result (BringsUp H.meaning job host.old host.new) }
    ensures run { IfErr result (JobBeginsOrNot H.meaning job host.old host.new) }
    ensures counts { CountsJob H.meaning (job_syncs job) host.old host.new result }
{
    match job {
        Job::Start(pages) => run_start(alloc, host, pages),
        Job::Go(target, pace) => run_go(alloc, host, target, pace),
        Job::Resume(pace) => run_resume(alloc, host, pace),
        Job::Once(target) => run_once(alloc, host, target),
        Job::Show => run_show(alloc, host),
        Job::Make(seed, count) => run_make(host, seed, count),
        Job::Demo(seed, count, target, pace) => run_demo(alloc, host, seed, count, target, pace),
    }
}

/// Does the command `start`, and says its line on Out.
fn run_start<H: Host>(alloc: Global, host: &mut H, pages: u64) -> Result<(), Refusal>
    requires { IsPaced (job.Start pages) }
    ensures cause { IfErr result (λ why. IsTrue H.meaning.tells → NeedsNoCause why
        ⊎ IsJobRefused (H.meaning.contents host.old).file (job.Start pages) why
        ⊎ IsJobDamaged (H.meaning.contents host.old).file (job.Start pages) why) }
    ensures given { IfErr result HasRefusalLine }
    ensures done { OnOk result (IsTrue H.meaning.tells → IsJobDone H.meaning.crashes.is_honest (job.Start pages)
        (H.meaning.contents host.old) (H.meaning.contents host.new)) }
    ensures durable { OnOk result (IsDurable H.meaning host.new) }
    ensures begun { OnOk result (JobBegins H.meaning (job.Start pages) host.old host.new) }
    ensures run { IfErr result (JobBeginsOrNot H.meaning (job.Start pages) host.old host.new) }
    ensures counts { CountsJob H.meaning (job_syncs (job.Start pages)) host.old host.new result }
{
    host.sync()?;
    let begun = start(alloc, host, pages)?;
    let line = started_line(begun.count, begun.time);
    host.say(Channel::Out, line.bytes())?;
    Ok(())
}

/// Does the command `go`, and says its last line on Out.
fn run_go<H: Host>(alloc: Global, host: &mut H, target: u64, pace: Pace) -> Result<(), Refusal>
    requires { IsPaced (job.Go target pace) }
    ensures cause { IfErr result (λ why. IsTrue H.meaning.tells → NeedsNoCause why
        ⊎ IsJobRefused (H.meaning.contents host.old).file (job.Go target pace) why
        ⊎ IsJobDamaged (H.meaning.contents host.old).file (job.Go target pace) why) }
    ensures given { IfErr result HasRefusalLine }
    ensures done { OnOk result (IsTrue H.meaning.tells → IsJobDone H.meaning.crashes.is_honest (job.Go target pace)
        (H.meaning.contents host.old) (H.meaning.contents host.new)) }
    ensures durable { OnOk result (IsDurable H.meaning host.new) }
    ensures begun { OnOk result (JobBegins H.meaning (job.Go target pace) host.old host.new) }
    ensures brought { IfErr result (BringsUp H.meaning (job.Go target pace) host.old host.new) }
    ensures run { IfErr result (JobBeginsOrNot H.meaning (job.Go target pace) host.old host.new) }
    ensures counts { CountsJob H.meaning (job_syncs (job.Go target pace)) host.old host.new result }
{
    host.sync()?;
    let done = go(alloc, host, pace, target)?;
    let line = done_line(done.time, done.ticks, done.gone);
    host.say(Channel::Out, line.bytes())?;
    Ok(())
}

/// Does the command `resume`, and says its last line on Out.
fn run_resume<H: Host>(alloc: Global, host: &mut H, pace: Pace) -> Result<(), Refusal>
    requires { IsPaced (job.Resume pace) }
    ensures cause { IfErr result (λ why. IsTrue H.meaning.tells → NeedsNoCause why
        ⊎ IsJobRefused (H.meaning.contents host.old).file (job.Resume pace) why
        ⊎ IsJobDamaged (H.meaning.contents host.old).file (job.Resume pace) why) }
    ensures given { IfErr result HasRefusalLine }
    ensures done { OnOk result (IsTrue H.meaning.tells → IsJobDone H.meaning.crashes.is_honest (job.Resume pace)
        (H.meaning.contents host.old) (H.meaning.contents host.new)) }
    ensures durable { OnOk result (IsDurable H.meaning host.new) }
    ensures begun { OnOk result (JobBegins H.meaning (job.Resume pace) host.old host.new) }
    ensures run { IfErr result (JobBeginsOrNot H.meaning (job.Resume pace) host.old host.new) }
    ensures counts { CountsJob H.meaning (job_syncs (job.Resume pace)) host.old host.new result }
{
    host.sync()?;
    let done = resume(alloc, host, pace)?;
    let line = done_line(done.time, done.ticks, done.gone);
    host.say(Channel::Out, line.bytes())?;
    Ok(())
}

/// Does the command `once`, and says its line on Out.
fn run_once<H: Host>(alloc: Global, host: &mut H, target: u64) -> Result<(), Refusal>
    ensures cause { IfErr result (λ why. IsTrue H.meaning.tells → NeedsNoCause why
        ⊎ IsJobRefused (H.meaning.contents host.old).file (job.Once target) why
        ⊎ IsJobDamaged (H.meaning.contents host.old).file (job.Once target) why) }
    ensures given { IfErr result HasRefusalLine }
    ensures done { OnOk result (IsTrue H.meaning.tells → IsJobDone H.meaning.crashes.is_honest (job.Once target)
        (H.meaning.contents host.old) (H.meaning.contents host.new)) }
    ensures durable { OnOk result (IsDurable H.meaning host.new) }
    ensures begun { OnOk result (JobBegins H.meaning (job.Once target) host.old host.new) }
    ensures run { IfErr result (JobBeginsOrNot H.meaning (job.Once target) host.old host.new) }
    ensures counts { CountsJob H.meaning (job_syncs (job.Once target)) host.old host.new result }
{
    host.sync()?;
    let done = once(alloc, host, target)?;
    let line = once_line(done.time, done.ticks, done.gone);
    host.say(Channel::Out, line.bytes())?;
    Ok(())
}

/// Does the command `show`, and says its text on Out, by one call.
fn run_show<H: Host>(alloc: Global, host: &mut H) -> Result<(), Refusal>
    ensures cause { IfErr result (λ why. IsTrue H.meaning.tells → NeedsNoCause why
        ⊎ IsJobRefused (H.meaning.contents host.old).file job.Show why
        ⊎ IsJobDamaged (H.meaning.contents host.old).file job.Show why) }
    ensures given { IfErr result HasRefusalLine }
    ensures done { OnOk result (IsTrue H.meaning.tells → IsJobDone H.meaning.crashes.is_honest job.Show
        (H.meaning.contents host.old) (H.meaning.contents host.new)) }
    ensures durable { OnOk result (IsDurable H.meaning host.new) }
    ensures begun { OnOk result (JobBegins H.meaning job.Show host.old host.new) }
    ensures run { IfErr result (JobBeginsOrNot H.meaning job.Show host.old host.new) }
    ensures counts { CountsJob H.meaning (job_syncs job.Show) host.old host.new result }
{
    host.sync()?;
    let shown = show(host)?;
    let text = folder_text(alloc, &shown)?;
    host.say(Channel::Out, &text)?;
    Ok(())
}

/// Does the command `make`, and says its line on Out.
fn run_make<H: Host>(host: &mut H, seed: u64, count: u64) -> Result<(), Refusal>
    requires { IsPaced (job.Make seed count) }
    ensures cause { IfErr result (λ why. IsTrue H.meaning.tells → NeedsNoCause why
        ⊎ IsJobRefused (H.meaning.contents host.old).file (job.Make seed count) why
        ⊎ IsJobDamaged (H.meaning.contents host.old).file (job.Make seed count) why) }
    ensures given { IfErr result HasRefusalLine }
    ensures done { OnOk result (IsTrue H.meaning.tells → IsJobDone H.meaning.crashes.is_honest (job.Make seed count)
        (H.meaning.contents host.old) (H.meaning.contents host.new)) }
    ensures durable { OnOk result (IsDurable H.meaning host.new) }
    ensures begun { OnOk result (JobBegins H.meaning (job.Make seed count) host.old host.new) }
    ensures run { IfErr result (JobBeginsOrNot H.meaning (job.Make seed count) host.old host.new) }
    ensures counts { CountsJob H.meaning (job_syncs (job.Make seed count)) host.old host.new result }
{
    host.sync()?;
    make(host, seed, count)?;
    let line = made_line(count);
    host.say(Channel::Out, line.bytes())?;
    Ok(())
}

/// Does the command `demo`, which says its own lines on Out.
fn run_demo<H: Host>(
    alloc: Global,
    host: &mut H,
    seed: u64,
    count: u64,
    target: u64,
    pace: Pace,
) -> Result<(), Refusal>
    requires { IsPaced (job.Demo seed count target pace) }
    ensures cause { IfErr result (λ why. IsTrue H.meaning.tells → NeedsNoCause why
        ⊎ IsJobRefused (H.meaning.contents host.old).file (job.Demo seed count target pace) why
        ⊎ IsJobDamaged (H.meaning.contents host.old).file (job.Demo seed count target pace) why) }
    ensures given { IfErr result HasRefusalLine }
    ensures done { OnOk result (IsTrue H.meaning.tells → IsJobDone H.meaning.crashes.is_honest (job.Demo seed count target pace)
        (H.meaning.contents host.old) (H.meaning.contents host.new)) }
    ensures durable { OnOk result (IsDurable H.meaning host.new) }
    ensures begun { OnOk result (JobBegins H.meaning (job.Demo seed count target pace) host.old host.new) }
    ensures run { IfErr result (JobBeginsOrNot H.meaning (job.Demo seed count target pace) host.old host.new) }
    ensures counts { CountsJob H.meaning (job_syncs (job.Demo seed count target pace)) host.old host.new result }
{
    host.sync()?;
    demo(alloc, host, seed, count, target, pace)?;
    Ok(())
}

/// Says on Err why the program isn't done, and answers the status: that of the reason, or, where its line
/// couldn't be said, that of what kept it from being said. A device fault, damage and want of memory stay what they
/// are.
fn say_why<H: Host>(host: &mut H, why: Stop) -> u8
    requires { IsSayable why }
    ensures { WasReported H.meaning why host.old host.new result }
{
    let line = why.line();
    let Err(error) = host.say(Channel::Err, line.bytes()) else {
        return why.status();
    };
    match why {
        Stop::Refused(Refusal::Device | Refusal::Damaged(_) | Refusal::NoMemory) => why.status(),
        _ => Stop::Refused(Refusal::from(error)).status(),
    }
}

#[cfg(test)]
mod generated;
#[cfg(test)]
mod lists;
#[cfg(test)]
mod sessions;
#[cfg(test)]
mod tests;
