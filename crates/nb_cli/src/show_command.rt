//! The text of the command `show`.

ghost use Rattle.std.specs.Prelude.{◌≡◌, IfOk};
ghost use Rattle.nb_engine.specs.Shown.{IsInReach};
ghost use Rattle.nb_cli.specs.Show.{folder_text};

use nb_engine::Shown;
use nb_format::{folder_line, param_line};
use std::alloc::{AllocError, Global};

/// How many parameters there are.
const PARAMETERS: u8 = 7;

/// The folder line, and the lines of the parameters.
pub fn folder_text(alloc: Global, shown: &Shown) -> Result<Vec<u8>, AllocError>
    requires { IsInReach shown.now }
    ensures { IfOk result (λ text. text.items ≡ folder_text
        (record { time = shown.now.time; ticks = shown.now.ticks; target = shown.now.target; gone = shown.now.gone })
        shown.now.count shown.now.params) }
{
    let folder = folder_line(
        shown.time,
        shown.ticks,
        shown.target,
        shown.count,
        shown.gone,
    );
    let mut text = Vec::from_slice(alloc, folder.bytes())?;
    for which in 0..PARAMETERS {
        text.extend_from_slice(param_line(&shown.params, which).bytes())?;
    }
    Ok(text)
}
