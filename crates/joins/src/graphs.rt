// A graph as it is lent.
#[derive(Clone, Copy)]
pub struct Lent<'a> {
    pub times: &'a [u16],
    pub arrows: &'a [[u16; 2]],
}
