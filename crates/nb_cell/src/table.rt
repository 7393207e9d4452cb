//! The table of cells.

ghost use Rattle.std.specs.Prelude.{◌≡◌, ◌≢◌, ◌+◌, ◌%◌, ◌^◌, ◌<◌, ◌≤◌, [], ◌∷◌, length, Contains};
ghost use Rattle.std.specs.Prelude.{IsTrue, unwrap_or, IfSome, IsOk, IfOk, IfErr, OnOk, OnErr, Err};
ghost use Rattle.nb_host.specs.Image.{Image, IsOverwritten};
ghost use Rattle.nb_host.specs.Page.{page_of, page_start};
ghost use Rattle.nb_host.specs.declared.page_name.PageName.{PageName as PageNames};
ghost use Rattle.nb_cache.specs.InStep.{IsCachedFile, IsCacheable, IsInStep, IsCoherent};
ghost use Rattle.nb_cache.specs.View.{names_of, view_of, seen, Seen, Same};
ghost use Rattle.nb_cache.specs.Writes.{RanCached};
ghost use Rattle.nb_record.specs.Pages.{record_count, IsCellPage};
ghost use Rattle.nb_record.specs.Records.{IsCell};
ghost use Rattle.nb_record.specs.Table.{next_of, IsCellTable};
ghost use Rattle.nb_record.specs.Writing.{IsZeroPaddedFile};
ghost use Rattle.nb_cell.specs.Chains.{first_page, PassesOn, EndsAt, HasNewPage};
ghost use Rattle.nb_cell.specs.Insertions.{Grows, HasInserted, HasKept, IsDamaged};

use crate::cell_error::CellError;
use crate::shown::ResidentPage;
use nb_cache::{Cache, CacheError};
use nb_host::{Host, HostError, PAGE_SIZE, PageName};
use nb_key::Key;
use nb_record::{
    CELL_SIZE, CELLS_PER_PAGE, Cell, CellPage, Look, add_cell, begin_cell_page, look, set_next,
};

/// The most bits of a key that name the page at which its chain begins.
pub const MOST_BITS: u32 = 18;

/// A table of cells in a file of pages: the file's number, how many bits of a key name the page at which its
/// chain begins, and how many pages the file has.
#[derive(Clone, Copy, PartialEq, Eq, Debug)]
pub struct CellTable {
    /// The file's number.
    pub file: u64,
    /// How many low bits of a key name the page at which its chain begins.
    pub bits: u32,
    /// How many pages the file has.
    pub pages: u64,
}

impl CellTable {
    /// Empties the file and makes it a table without cells, whose chains have one page each, with zeros
    /// behind its header. After a refusal the file may hold anything.
    pub fn make<H: Host>(
        host: &mut H,
        cache: &mut Cache,
        file: u64,
        bits: u32,
    ) -> Result<CellTable, HostError>
        requires cached { IsCachedFile file }
        requires bits { bits ≤ MOST_BITS }
        requires in_step { IsInStep H.meaning cache.old host.old }
        ensures value { IfOk result (λ t. t ≡ record { file = file; bits = bits; pages = 2 ^ bits }) }
        ensures table { OnOk result (IsTrue H.meaning.tells
            → IsCellTable (seen H.meaning cache.new host.new file) bits (2 ^ bits) []) }
        ensures padded { OnOk result (IsTrue H.meaning.tells
            → IsZeroPaddedFile CELL_SIZE (seen H.meaning cache.new host.new file)) }
        ensures ran { RanCached H.meaning HostError.Fault (file ∷ []) cache.old host.old
            cache.new host.new result }
    {
        let pages = chain_count(bits);
        of_host(cache.empty(host, file))?;
        let mut bytes = [0; PAGE_SIZE];
        for page in 0..pages {
            begin_cell_page(&mut bytes, page);
            of_host(cache.put(host, PageName { file, page }, &bytes))?;
        }
        Ok(CellTable { file, bits, pages })
    }

    /// Adds a cell, whose key the table lacks, at the end of its key's chain. Where the chain's last page is
    /// full, the file gets one more page, which is put before the page that leads to it is changed. So a
    /// refusal leaves the table's pages as they were, perhaps with a page behind them, unless the device
    /// failed. A file with such a page is no table: it is to be made anew. After Fault the page that was put
    /// may hold anything.
    pub fn insert<H: Host>(
        &mut self,
        host: &mut H,
        cache: &mut Cache,
        cell: &Cell,
    ) -> Result<(), CellError>
        requires room { IsCacheable (record { file = self.old.file; page = self.old.pages }) }
        requires bits { self.old.bits ≤ MOST_BITS }
        requires cell { IsCell cell.now }
        requires in_step { IsInStep H.meaning cache.old host.old }
        ensures inserted { OnOk result (Seen H.meaning self.old.file (HasInserted self.old self.new cell.now)
            cache.old host.old cache.new host.new) }
        ensures kept { IfErr result (λ error. error ≢ CellError.Fault
            → Seen H.meaning self.old.file (HasKept self.old) cache.old host.old cache.new host.new) }
        ensures damaged { (name : PageNames) → result ≡ Err (CellError.Damaged name)
            → IsDamaged H.meaning self.old cell.now.key cache.old host.old name }
        ensures unchanged { (name : PageNames) → result ≡ Err (CellError.Damaged name)
            → Seen H.meaning self.old.file Same cache.old host.old cache.new host.new }
        ensures value { Grows self.old self.new }
        ensures refusal { OnErr result (self.new ≡ self.old) }
        ensures ran { RanCached H.meaning CellError.Fault (self.old.file ∷ []) cache.old host.old
            cache.new host.new result }
    {
        let last = self.last_page(host, cache, cell.key)?;
        let mut bytes = [0; PAGE_SIZE];
        let count = self.copy_page(cache, last, &mut bytes)?;
        if count < CELLS_PER_PAGE {
            add_cell(&mut bytes, cell);
            return self.put_page(host, cache, last, &bytes);
        }
        self.add_page(host, cache, cell)?;
        set_next(&mut bytes, self.pages);
        self.put_page(host, cache, last, &bytes)?;
        self.pages += 1;
        Ok(())
    }

    /// The last page of the chain of a key that the table lacks. It is resident then.
    fn last_page<H: Host>(
        &self,
        host: &mut H,
        cache: &mut Cache,
        key: Key,
    ) -> Result<u64, CellError>
        requires room { IsCacheable (record { file = self.now.file; page = self.now.pages }) }
        requires bits { self.now.bits ≤ MOST_BITS }
        requires in_step { IsInStep H.meaning cache.old host.old }
        ensures within { IfOk result (λ page. page < self.now.pages) }
        ensures resident { IfOk result (λ page.
            Contains (names_of cache.new) (record { file = self.now.file; page = page })) }
        ensures ends { IfOk result (λ page. IsTrue H.meaning.tells
            → EndsAt (seen H.meaning cache.old host.old self.now.file) self.now.pages key
            (first_page self.now.bits key) page) }
        ensures damaged { (name : PageNames) → result ≡ Err (CellError.Damaged name)
            → IsDamaged H.meaning self.now key cache.old host.old name }
        ensures ran { RanCached H.meaning CellError.Fault [] cache.old host.old cache.new host.new result }
    {
        let mut page = key.number() % chain_count(self.bits);
        if page >= self.pages {
            return Err(CellError::Damaged(self.name(page)));
        }
        loop {
            match self.next_page(host, cache, key, page)? {
                Some(next) => page = next,
                None => return Ok(page),
            }
        }
    }

    /// Looks for a key on a page, which is resident then, and answers its next page, if it has one. A page
    /// that doesn't lead past is damaged.
    fn next_page<H: Host>(
        &self,
        host: &mut H,
        cache: &mut Cache,
        key: Key,
        page: u64,
    ) -> Result<Option<u64>, CellError>
        requires room { IsCacheable (record { file = self.now.file; page = self.now.pages }) }
        requires within { page < self.now.pages }
        requires in_step { IsInStep H.meaning cache.old host.old }
        ensures resident { OnOk result
            (Contains (names_of cache.new) (record { file = self.now.file; page = page })) }
        ensures later { IfOk result (λ next. IfSome next (λ next. (page < next) × (next < self.now.pages))) }
        ensures past { OnOk result (IsTrue H.meaning.tells
            → PassesOn (seen H.meaning cache.old host.old self.now.file) self.now.pages key page) }
        ensures next { IfOk result (λ next. IsTrue H.meaning.tells
            → next_of (seen H.meaning cache.old host.old self.now.file) page ≡ unwrap_or next 0) }
        ensures named { (name : PageNames) → result ≡ Err (CellError.Damaged name)
            → name ≡ record { file = self.now.file; page = page } }
        ensures damaged { (name : PageNames) → result ≡ Err (CellError.Damaged name)
            → IsTrue H.meaning.tells
            → PassesOn (seen H.meaning cache.old host.old self.now.file) self.now.pages key page → ⊥ }
        ensures ran { RanCached H.meaning CellError.Fault [] cache.old host.old cache.new host.new result }
    {
        let name = self.name(page);
        prove!(cache.pages() > 0);
        cache.fetch(host, &[name])?;
        let bytes = cache.lent(name).unwrap();
        let shown = ResidentPage { page, bytes };
        match look(&shown, key, page) {
            Look::Gone => Ok(None),
            Look::Next(next) => {
                if next >= self.pages {
                    return Err(CellError::Damaged(name));
                }
                Ok(Some(next))
            }
            _ => Err(CellError::Damaged(name)),
        }
    }

    /// Copies the bytes of a resident page, and answers how many cells it has.
    fn copy_page(&self, cache: &Cache, page: u64, into: &mut [u8]) -> Result<u64, CellError>
        requires resident { Contains (names_of cache.now) (record { file = self.now.file; page = page }) }
        requires size { length into.old ≡ PAGE_SIZE }
        ensures size { length into.new ≡ PAGE_SIZE }
        ensures form { OnOk result (IsCellPage page into.new) }
        ensures count { IfOk result (λ count. count ≡ record_count into.new) }
        ensures view { OnOk result ((image : Image) → IsCoherent cache.now image
            → into.new ≡ page_of (view_of cache.now image self.now.file) page) }
        ensures named { IfErr result (λ error. error
            ≡ CellError.Damaged (record { file = self.now.file; page = page })) }
        ensures damaged { OnErr result ((image : Image) → IsCoherent cache.now image
            → IsCellPage page (page_of (view_of cache.now image self.now.file) page) → ⊥) }
    {
        let name = self.name(page);
        let bytes = cache.lent(name).unwrap();
        match CellPage::check(bytes, page) {
            Ok(cells) => {
                into.copy_from_slice(bytes);
                Ok(cells.count())
            }
            Err(_) => Err(CellError::Damaged(name)),
        }
    }

    /// Puts a page with this cell alone behind the table's pages.
    fn add_page<H: Host>(
        &self,
        host: &mut H,
        cache: &mut Cache,
        cell: &Cell,
    ) -> Result<(), CellError>
        requires room { IsCacheable (record { file = self.now.file; page = self.now.pages }) }
        requires in_step { IsInStep H.meaning cache.old host.old }
        ensures added { OnOk result (Seen H.meaning self.now.file (HasNewPage self.now.pages cell.now)
            cache.old host.old cache.new host.new) }
        ensures kept { IfErr result (λ error. error ≢ CellError.Fault
            → Seen H.meaning self.now.file Same cache.old host.old cache.new host.new) }
        ensures host_refusal { (name : PageNames) → result ≢ Err (CellError.Damaged name) }
        ensures ran { RanCached H.meaning CellError.Fault (self.now.file ∷ []) cache.old host.old
            cache.new host.new result }
    {
        let mut added = [0; PAGE_SIZE];
        begin_cell_page(&mut added, self.pages);
        add_cell(&mut added, cell);
        self.put_page(host, cache, self.pages, &added)
    }

    /// Puts a page of the table's file.
    fn put_page<H: Host>(
        &self,
        host: &mut H,
        cache: &mut Cache,
        page: u64,
        bytes: &[u8],
    ) -> Result<(), CellError>
        requires room { IsCacheable (record { file = self.now.file; page = page }) }
        requires size { length bytes.now ≡ PAGE_SIZE }
        requires in_step { IsInStep H.meaning cache.old host.old }
        ensures put { OnOk result (Seen H.meaning self.now.file (IsOverwritten (page_start page) bytes.now)
            cache.old host.old cache.new host.new) }
        ensures kept { IfErr result (λ error. error ≢ CellError.Fault
            → Seen H.meaning self.now.file Same cache.old host.old cache.new host.new) }
        ensures host_refusal { (name : PageNames) → result ≢ Err (CellError.Damaged name) }
        ensures ran { RanCached H.meaning CellError.Fault (self.now.file ∷ []) cache.old host.old
            cache.new host.new result }
    {
        cache.put(host, self.name(page), bytes)?;
        Ok(())
    }

    /// The name of a page of the table's file.
    fn name(&self, page: u64) -> PageName
        ensures { result ≡ record { file = self.now.file; page = page } }
    {
        PageName {
            file: self.file,
            page,
        }
    }
}

/// How many chains a table has whose keys have so many bits that name them.
fn chain_count(bits: u32) -> u64
    requires { bits ≤ MOST_BITS }
    ensures value { result ≡ 2 ^ bits }
    ensures some { 0 < result }
    ensures most { result ≤ 2 ^ MOST_BITS }
{
    1 << bits
}

/// What a call answered that reads no page, and so is never answered that one is short: the host's reason.
fn of_host(outcome: Result<(), CacheError>) -> Result<(), HostError>
    requires { (name : PageNames) → outcome ≢ Err (CacheError.Short name) }
    ensures done { OnOk result (IsOk outcome) }
    ensures fault { result ≡ Err HostError.Fault → outcome ≡ Err CacheError.Fault }
    ensures handed_on { outcome ≡ Err CacheError.Fault → result ≡ Err HostError.Fault }
{
    match outcome {
        Ok(()) => Ok(()),
        Err(CacheError::Fault) => Err(HostError::Fault),
        Err(CacheError::NoMemory | CacheError::Short(_)) => Err(HostError::NoMemory),
    }
}
