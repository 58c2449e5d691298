//! How many rows a font may still have.
ghost use Rattle.std.specs.Prelude.{◌≡◌, ◌+◌, IfOk, IfErr, OnOk, OnErr, Ok, Err};
ghost use Rattle.font_bytes.specs.Room.{room_after};

use crate::fault::TableFault;

/// How many rows a font may still have: what is read from a file can be far larger than the file.
#[derive(Clone, Copy, PartialEq, Eq, Debug)]
pub struct Room {
    pub left: usize,
}

impl Room {
    /// Takes room for some rows; one row more than there is room for is refused.
    pub fn take(&mut self, rows: usize) -> Result<(), TableFault>
        ensures ok { OnOk result (room_after self.old.left rows ≡ Ok self.new.left) }
        ensures refused { IfErr result (λ e. room_after self.old.left rows ≡ Err e) }
        ensures kept { OnErr result (self.new ≡ self.old) }
    {
        if rows > self.left {
            return Err(TableFault::TooLarge);
        }
        self.left -= rows;
        Ok(())
    }
}
