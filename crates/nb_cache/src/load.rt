//! Reading a page into a frame.

ghost use Rattle.std.specs.Prelude.{◌≡◌, IsTrue, OnOk, Err};
ghost use Rattle.nb_host.specs.declared.page_name.PageName.{PageName as PageNames};
ghost use Rattle.nb_host.specs.Crashes.{Stays};
ghost use Rattle.nb_host.specs.Meaning.{Ran};
ghost use Rattle.nb_host.specs.Page.{HasPage, page_of};
ghost use Rattle.nb_cache.specs.InStep.{IsCacheable};

use crate::cache_error::CacheError;
use crate::frame::Frame;
use nb_host::{Host, PAGE_SIZE, PageName};

/// Reads the page into the frame, or tells that the file ends before the page does.
pub(crate) fn load<H: Host>(
    host: &mut H,
    name: PageName,
    frame: &mut Frame,
) -> Result<(), CacheError>
    requires { IsCacheable name }
    ensures page { OnOk result (IsTrue H.meaning.tells
        → frame.new.bytes.items ≡ page_of ((H.meaning.contents host.old).file name.file) name.page) }
    ensures whole { OnOk result (IsTrue H.meaning.tells
        → HasPage ((H.meaning.contents host.old).file name.file) name.page) }
    ensures short { (other : PageNames) → result ≡ Err (CacheError.Short other) → other ≡ name }
    ensures ends { (other : PageNames) → result ≡ Err (CacheError.Short other) → IsTrue H.meaning.tells
        → HasPage ((H.meaning.contents host.old).file name.file) name.page → ⊥ }
    ensures ran { Ran H.meaning CacheError.Fault Stays host.old host.new result }
{
    let at = name.page * PAGE_SIZE as u64;
    let found = host.read_at(name.file, at, &mut frame.bytes)?;
    if found < PAGE_SIZE {
        return Err(CacheError::Short(name));
    }
    Ok(())
}
