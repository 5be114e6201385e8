ghost use Rattle.std.specs.Prelude.{◌≡◌};
ghost use Rattle.host_script.specs.Spelling.{IsScript};

use crate::line::Line;
use std::marker::Model;
use zns_types::Geometry;

/// A script: the geometry of a drive with at least two queues, and at most 262,144 lines, whose host
/// data is at most 2^27 bytes in all.
#[derive(Drop)]
pub struct Script {
    geometry: Geometry,
    lines: Vec<Line>,
}

impl Model for Script {
    ghost use Rattle.host_script.specs.Spelling.{Scripted, IsScript};

    ghost Value = { Scripted };

    ghost view = { λ s. record { geometry = s.geometry.fields; lines = s.lines.items } };

    ghost invariant = { λ s. IsScript (record {
      geometry = s.geometry.fields;
      lines = s.lines.items;
    }) };
}

impl Script {
    /// The script of these lines for a drive.
    pub fn new(geometry: Geometry, lines: Vec<Line>) -> Script
        requires { IsScript (record { geometry = geometry.fields; lines = lines.items }) }
        ensures { result ≡ record { geometry = geometry.fields; lines = lines.items } }
    {
        Script { geometry, lines }
    }

    /// The drive's geometry and the lines.
    pub fn into_parts(self) -> (Geometry, Vec<Line>)
        ensures geometry { result.0.fields ≡ self.geometry }
        ensures lines { result.1.items ≡ self.lines }
        ensures script { IsScript self }
    {
        let Script { geometry, lines } = self;
        (geometry, lines)
    }
}
