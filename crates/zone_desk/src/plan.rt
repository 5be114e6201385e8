use zns_types::GeometryFields;

/// What a desk is made with: its drive's geometry, and the number of acts that it has room for.
#[derive(Clone, Copy)]
pub struct Plan {
    pub fields: GeometryFields,
    pub room: u32,
}
