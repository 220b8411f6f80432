ghost use Rattle.std.specs.Prelude.{◌≡◌, ◌↔◌, length, map, IsTrue, IfOk};
ghost use Rattle.std.specs.List.{Contains};
ghost use Rattle.std.specs.Option.{option_copied};
ghost use Rattle.redo_core.specs.Order.{IsRising, CutBefore, AdvanceBefore, RecordBefore, Lists, BeforeByNumber};
ghost use Rattle.redo_core.specs.Keys.{key_of, KeyBefore};
ghost use Rattle.hot_log.specs.Held.{IsRecordAt, IsKeyAfter, HoldsKey};
ghost use Rattle.hot_log.specs.Alive.{IsHeldOf};
ghost use Rattle.hot_log.specs.Found.{IsPageAfter};
ghost use Rattle.hot_log.specs.Missing.{IsMissing};
ghost use Rattle.hot_log.specs.Kept.{ListsKeysOf};
ghost use Rattle.hot_log.specs.Scanning.{StoresKept};
ghost use Rattle.page_base.specs.Stored.{IsStored};
ghost use Rattle.segment_theorems.specs.HasMeaning.{IsKeptBy};
ghost use Rattle.segment_theorems.specs.State.{version_of, image_of};

use crate::segment::Segment;
use hot_log::BookView;
use page_base::BaseImage;
use redo_core::{Advance, Cut, Key, Page, Record};
use std::alloc::{AllocError, Global};

impl Segment {
    /// The allocator that the segment takes its memory from.
    pub fn allocator(&self) -> Global {
        self.alloc
    }

    /// The keys of the stored records, rising. It fails only if memory runs out.
    pub fn stored(&self) -> Result<Vec<Key>, AllocError>
        ensures keys { IfOk result (λ v. v.items ≡ map key_of self.now.held) }
        ensures rising { IsRising RecordBefore self.now.held }
    {
        let mut keys = Vec::with_capacity(self.alloc, self.hot.len())?;
        let mut next = self.hot.key_after(None);
        while let Some(key) = next {
            keys.push(key)?;
            next = self.hot.key_after(Some(key));
        }
        Ok(keys)
    }

    /// The keys of the stored records that wait, or are alive above a point, rising. It fails only if memory runs out.
    pub fn kept_keys(&self, point: u64) -> Result<Vec<Key>, AllocError>
        ensures keys { IfOk result (λ v. ListsKeysOf (IsKeptBy self.now point) v.items) }
        ensures rising { IsRising RecordBefore self.now.held }
    {
        let (book, held) = (&self.book, &self.hot);
        BookView { book, held }.kept_keys(self.alloc, point)
    }

    /// The stored records that wait, or are alive above a point, and whose keys are not among the ones given, which rise; rising by key.
    /// It fails only if memory runs out.
    pub fn kept_unlisted(&self, point: u64, keys: &[Key]) -> Result<Vec<&Record>, AllocError>
        requires { IsRising KeyBefore keys.now }
        ensures { IfOk result (λ v. Lists RecordBefore (λ r. IsKeptBy self.now point r × (Contains keys.now (key_of r) → ⊥)) (map (λ x. x.now) v.items)) }
    {
        let (book, held) = (&self.book, &self.hot);
        BookView { book, held }.kept_unlisted(self.alloc, point, keys)
    }

    /// The truncations known, rising by epoch.
    pub fn cuts(&self) -> &[Cut]
        ensures value { result.now ≡ self.now.book.cuts }
        ensures rising { IsRising CutBefore self.now.book.cuts }
    {
        self.book.cuts()
    }

    /// The advances that wait for their epoch, rising by epoch, reader and point.
    pub fn waits(&self) -> &[Advance]
        ensures value { result.now ≡ self.now.book.waits }
        ensures rising { IsRising AdvanceBefore self.now.book.waits }
    {
        self.book.waits()
    }

    /// The least key of a stored record above the one given; with none given, the least of all.
    pub fn key_after(&self, after: Option<Key>) -> Option<Key>
        ensures { IsKeyAfter self.now.held after result }
    {
        self.hot.key_after(after)
    }

    /// The least page above the one given that a stored record writes, whatever its standing; the least of all for None.
    pub fn page_after(&self, after: Option<u16>) -> Option<u16>
        ensures { IsPageAfter self.now.held after result }
    {
        self.hot.page_after(after)
    }

    /// Whether a record of a key is stored.
    pub fn holds_key(&self, key: Key) -> bool
        ensures { IsTrue result ↔ HoldsKey self.now.held key }
    {
        self.hot.holds_key(key)
    }

    /// The stored record of a key.
    pub fn get(&self, key: Key) -> Option<&Record>
        ensures { IsRecordAt self.now.held key (option_copied result) }
    {
        self.hot.get(key)
    }

    /// The stored base images, rising by page; a page without one is zeros at the greatest base adopted or default version merged.
    pub fn pages(&self) -> &[BaseImage]
        ensures value { result.now ≡ self.now.store.images }
        ensures rising { IsStored self.now.store }
    {
        self.store.pages()
    }

    /// The version of the pages that have no base image, which are zeros.
    pub fn floor(&self) -> u64
        ensures { result ≡ self.now.store.floor }
    {
        self.store.floor()
    }

    /// A copy of a page's base image. It fails only if memory runs out.
    pub fn image(&self, page: u16) -> Result<Page, AllocError>
        ensures { IfOk result (λ image. image ≡ image_of self.now.store page) }
    {
        self.store.image(page)
    }

    /// The version of a page's base image, which is an LSN.
    pub fn version(&self, page: u16) -> u64
        ensures { result ≡ version_of self.now.store page }
    {
        self.store.version(page)
    }

    /// How many records are stored.
    pub fn held_len(&self) -> usize
        ensures { result ≡ length self.now.held }
    {
        self.hot.len()
    }

    /// The records that another segment stores and this one does not, rising by key. It fails only if memory runs out.
    pub fn missing<'a>(&self, other: &'a Segment) -> Result<Vec<&'a Record>, AllocError>
        ensures { IfOk result (λ v. Lists RecordBefore (IsMissing self.now.held other.now.held) (map (λ x. x.now) v.items)) }
    {
        self.hot.missing(self.alloc, &other.hot)
    }

    /// Whether this segment stores each record of another one that both keep, this one above a point and the other one above a base: the
    /// record waits, or is alive above that LSN. It scans both side by side, and ends at the first that is not stored.
    pub fn stores_kept(&self, point: u64, lower: &Segment, base: u64) -> bool
        ensures { IsTrue result ↔ StoresKept self.now.book self.now.held point lower.now.book lower.now.held base }
    {
        let (book, held) = (&self.book, &self.hot);
        let other = BookView {
            book: &lower.book,
            held: &lower.hot,
        };
        BookView { book, held }.stores_kept(point, &other, base)
    }

    /// The alive records of a page with an LSN above `from` and at most `to`, in order. It fails only if memory runs out.
    pub fn records_of(&self, page: u16, from: u64, to: u64) -> Result<Vec<&Record>, AllocError>
        ensures { IfOk result (λ v. Lists BeforeByNumber (IsHeldOf self.now.book self.now.held page from to) (map (λ x. x.now) v.items)) }
    {
        let (book, held) = (&self.book, &self.hot);
        BookView { book, held }.records_of(self.alloc, page, from, to)
    }
}
