ghost use Rattle.std.specs.Prelude.{◌≡◌, ◌≤◌, [], length, nat_eq, IfOk, IfSome, Contains, None};
ghost use Rattle.std.specs.List.{IsDistinct};
ghost use Rattle.std.specs.Map.{keys_of};
ghost use Rattle.lru.specs.LruCache.{lru_cache};
ghost use Rattle.read_cache.specs.declared.kept.KeptImage.{KeptImage as Kept};
ghost use Rattle.read_cache.specs.Images.{IsAmong, Forgets, CachesOnly, kept_at};

use crate::kept::KeptImage;
use lru::LruCache;
use redo_core::Page;
use std::alloc::{AllocError, Global};
use std::marker::Model;
use std::num::NonZeroUsize;

/// Images by page, at most as many as the cache may keep. Contracts see them as an `lru` cache, even where none may be kept.
#[derive(Drop)]
pub(crate) struct Images {
    cache: Option<LruCache<u16, KeptImage>>,
}

impl Model for Images {
    ghost use Rattle.read_cache.specs.Images.{Images as Entries, images_in};

    ghost Value = { Entries };

    ghost view = { λ i. images_in i.cache };
}

impl Images {
    /// An empty cache for at most `pages` images. It takes no room before it keeps one.
    pub(crate) fn new(alloc: Global, pages: usize) -> Result<Self, AllocError>
        ensures { IfOk result (λ i. i ≡ lru_cache [] pages) }
    {
        match NonZeroUsize::new(pages) {
            Some(cap) => Ok(Images {
                cache: Some(LruCache::sparse(alloc, cap)?),
            }),
            None => Ok(Images { cache: None }),
        }
    }

    pub(crate) fn len(&self) -> usize
        ensures count { result ≡ length self.now.entries }
        ensures within { length self.now.entries ≤ self.now.cap }
        ensures one { IsDistinct nat_eq (keys_of self.now.entries) }
    {
        match &self.cache {
            Some(cache) => cache.len(),
            None => 0,
        }
    }

    /// A copy of the page's image, where one is kept that was read at the point. It fails only if memory runs out.
    pub(crate) fn find(&mut self, page: u16, point: u64) -> Option<Result<Page, AllocError>>
        ensures found { IfSome result (λ copied. (kept : Kept) × Contains self.old.entries (page, kept) × (kept.point ≡ point) × IfOk copied (λ image. image ≡ kept.image)) }
        ensures among { IsAmong self.new self.old }
        ensures pages { self.new.cap ≡ self.old.cap }
    {
        match &mut self.cache {
            Some(cache) => copy_at(cache, page, point),
            None => None,
        }
    }

    /// Keeps an image as the page's, where memory allows. The one read longest ago is dropped where there are too many.
    pub(crate) fn keep(&mut self, page: u16, point: u64, image: Page)
        ensures keeps { CachesOnly self.old page (kept_at point image) self.new }
        ensures pages { self.new.cap ≡ self.old.cap }
    {
        if let Some(cache) = &mut self.cache {
            put(cache, page, KeptImage { point, image });
        }
    }

    /// Drops the page's image.
    pub(crate) fn forget(&mut self, page: u16)
        ensures forgets { Forgets self.old page self.new }
        ensures pages { self.new.cap ≡ self.old.cap }
    {
        match &mut self.cache {
            Some(cache) => remove(cache, page),
            None => {}
        }
    }

    /// Drops every image.
    pub(crate) fn clear(&mut self)
        ensures { self.new ≡ lru_cache [] self.old.cap }
    {
        if let Some(cache) = &mut self.cache {
            cache.clear();
        }
    }
}

fn copy_at(
    cache: &mut LruCache<u16, KeptImage>,
    page: u16,
    point: u64,
) -> Option<Result<Page, AllocError>>
    ensures found { IfSome result (λ copied. (kept : Kept) × Contains cache.old.entries (page, kept) × (kept.point ≡ point) × IfOk copied (λ image. image ≡ kept.image)) }
    ensures among { IsAmong cache.new cache.old }
    ensures pages { cache.new.cap ≡ cache.old.cap }
{
    match cache.get(&page) {
        Some(kept) if kept.point == point => Some(kept.image.copy()),
        _ => None,
    }
}

fn put(cache: &mut LruCache<u16, KeptImage>, page: u16, kept: KeptImage)
    ensures keeps { CachesOnly cache.old page kept cache.new }
    ensures pages { cache.new.cap ≡ cache.old.cap }
{
    drop(cache.put(page, kept));
}

fn remove(cache: &mut LruCache<u16, KeptImage>, page: u16)
    ensures forgets { Forgets cache.old page cache.new }
    ensures pages { cache.new.cap ≡ cache.old.cap }
{
    // Only `len` ensures that the pages of a cache are distinct.
    let _length = cache.len();
    drop(cache.pop(&page));
}
