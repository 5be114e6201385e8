/// How many zones hold each kind of resource.
#[derive(Clone, Copy, Debug, Default, PartialEq, Eq)]
pub struct Limits {
    /// Active zones: opened or Closed.
    pub active: u32,

    /// Opened zones.
    pub opened: u32,

    /// Zones that have a random write area.
    pub windows: u32,
}

/// The resources that a command needs for one zone, or that a zone gives back.
#[derive(Clone, Copy, Debug, Default, PartialEq, Eq)]
pub struct Need {
    pub active: bool,
    pub opened: bool,
    pub window: bool,
}

/// What has to be done before the resources are available.
#[derive(Clone, Copy, Debug, PartialEq, Eq)]
pub struct Grant {
    /// An opened zone has to be closed first.
    pub evict: bool,
}
