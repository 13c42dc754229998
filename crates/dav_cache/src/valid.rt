ghost use Rattle.lru.specs.LruCache.{IsValid};

use lru::LruCache;
use std::hash::Hash;

/// Tells a proof what each `LruCache` keeps: no key stands twice, and there are no more entries than it has room for.
/// Its `len` says so, and nothing else is asked of it here.
pub fn no_key_stands_twice<K: Eq + Hash, V>(entries: &LruCache<K, V>)
    ensures { IsValid K.eq entries.now }
{
    let _len = entries.len();
}
