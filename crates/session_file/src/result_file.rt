ghost use Rattle.std.specs.Prelude.{◌≡◌, ◌++◌, ◌<◌, ◌^◌, OnOk, IfOk, length};
ghost use Rattle.zone_model.specs.Sessions.{own_order, order_bytes, reply_part};

use crate::results::{put_own_order, put_part};
use cqe_codec::Cqe;
use std::alloc::Global;
use std::marker::Model;
use zns_io::{Bytes, NoMemory};
use zone_model::Acts;

/// A result file that is being written: the order of the acts, and the replies so far.
#[derive(Drop)]
pub struct ResultFile {
    file: Vec<u8>,
}

impl Model for ResultFile {
    ghost use Rattle.std.specs.Prelude.{ℕ, List};

    ghost Value = { List ℕ };

    ghost view = { λ r. r.file.items };
}

impl ResultFile {
    /// The result of acts that are served in their own order, with no replies yet.
    pub fn new(alloc: Global, acts: &Acts) -> Result<ResultFile, NoMemory>
        ensures { IfOk result (λ r. r ≡ order_bytes (own_order acts.now.acts)) }
    {
        let mut file = Vec::new(alloc);
        put_own_order(&mut file, acts)?;
        Ok(ResultFile { file })
    }

    /// Appends a reply: its entries and the bytes that it read.
    pub fn put(&mut self, entries: &[Cqe], read: &[u8]) -> Result<(), NoMemory>
        requires few { length entries.now < 2 ^ 16 }
        requires short { length read.now < 2 ^ 32 }
        ensures { OnOk result (self.new ≡ self.old ++ reply_part entries.now read.now) }
    {
        put_part(&mut self.file, entries, read)
    }

    /// Completes the file with the descriptors of all zones, of 64 bytes each, and the page of
    /// changed zones, of 4,096 bytes.
    pub fn finish(self, descriptors: &[u8], page: &[u8]) -> Result<Bytes, NoMemory>
        ensures { IfOk result (λ b. b ≡ self ++ descriptors.now ++ page.now) }
    {
        let ResultFile { mut file } = self;
        file.extend_from_slice(descriptors)?;
        file.extend_from_slice(page)?;
        Ok(Bytes::from_vec(file))
    }
}
