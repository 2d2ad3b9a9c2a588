// What `bounds` measures.

// TBO is numerator / denominator in lowest terms; length is how many places its circuit has.
#[derive(Clone, Copy)]
pub struct Measures {
    pub numerator: u64,
    pub denominator: u64,
    pub tbio: u32,
    pub tt: u32,
    pub tce: u32,
    pub length: usize,
}
