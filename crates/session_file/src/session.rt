ghost use Rattle.std.specs.Prelude.{◌≡◌};
ghost use Rattle.zone_model.specs.Sessions.{IsSession};

use std::marker::Model;
use zns_types::Geometry;
use zone_model::Acts;

/// A drive's numbers and acts, within the limits of a file: at most 262,144 acts, each on a queue
/// of the drive and with the host data for its entry. Together they send at most 2^27 bytes and ask
/// for at most 2^27.
#[derive(Drop)]
pub struct Session {
    geometry: Geometry,
    acts: Acts,
}

impl Model for Session {
    ghost use Rattle.zone_model.specs.Sessions.{Recorded, IsSession};

    ghost Value = { Recorded };

    ghost view = { λ s. record { geometry = s.geometry.fields; acts = s.acts.acts } };

    ghost invariant = { λ s. IsSession (record { geometry = s.geometry.fields; acts = s.acts.acts }) };
}

impl Session {
    /// The session of acts on a drive.
    pub fn new(geometry: Geometry, acts: Acts) -> Session
        requires { IsSession (record { geometry = geometry.fields; acts = acts.acts }) }
        ensures { result ≡ record { geometry = geometry.fields; acts = acts.acts } }
    {
        Session { geometry, acts }
    }

    /// The drive.
    pub fn geometry(&self) -> &Geometry
        ensures fields { result.now.fields ≡ self.now.geometry }
        ensures session { IsSession self.now }
    {
        &self.geometry
    }

    /// The acts, in the order of the file.
    pub fn acts(&self) -> &Acts
        ensures acts { result.now.acts ≡ self.now.acts }
        ensures session { IsSession self.now }
    {
        &self.acts
    }

    /// The drive and the acts.
    pub fn into_parts(self) -> (Geometry, Acts)
        ensures geometry { result.0.fields ≡ self.geometry }
        ensures acts { result.1.acts ≡ self.acts }
        ensures session { IsSession self }
    {
        let Session { geometry, acts } = self;
        (geometry, acts)
    }
}
