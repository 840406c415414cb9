use model::Certificate;

/// The right to propose once: a view, and the certificate of the coming block's parent. Only `Station::ground` makes one, and it is
/// not copied.
#[derive(Drop)]
pub struct Ground {
    pub(crate) view: u32,
    pub(crate) parent: Certificate,
}
