// What a session has on record of a live span.
use allocator::Layout;

#[derive(Clone, Copy, Default)]
pub struct LiveSpan {
    pub grant: u32,
    pub at: usize,
    pub layout: Layout,
}
