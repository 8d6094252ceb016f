// A packed object as it is handed out.

// Where it lies in the memory, how many links it has, and its bytes: lent by the memory, or a copy of them.
#[derive(Clone, Copy, Drop)]
pub struct ObjectView<B> {
    pub head: usize,
    pub tail: usize,
    pub num_real_links: usize,
    pub num_virtual_links: usize,
    pub bytes: B,
}
