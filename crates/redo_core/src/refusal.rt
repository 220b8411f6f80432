/// What a refused call returns: the value that was moved into it, and why it was refused.
#[derive(Drop)]
pub struct Refused<V, F> {
    pub value: V,
    pub fault: F,
}
