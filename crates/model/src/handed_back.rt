// Why a call did not do what it was asked, with the value that it was given, handed back unaltered.
#[derive(Drop)]
pub struct HandedBack<T, E> {
    pub value: T,
    pub error: E,
}
