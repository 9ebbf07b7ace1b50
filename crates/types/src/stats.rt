// Statistics of the cache.
#[derive(Clone, Copy)]
pub struct CacheStats {
    pub entries: u64,
    pub max_entries: u64,
    pub expired: u64,
    pub avg_age_ms: u64,
}
