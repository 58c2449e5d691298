//! Lists that C reads in its own arrays, as `c_text::written` has them: its trait is for types of that crate alone.
ghost use Rattle.std.specs.Prelude.{◌≡◌, map};
ghost use Rattle.c_text.specs.Written.{with_front};

/// A line or a caret, which C reads in a form of its own.
pub trait Row {
    type Form: Copy;

    ghost form_of: { Self → Self.Form };

    /// Its form.
    fn form(&self) -> Self::Form
        ensures { result ≡ form_of self.now };
}

/// Writes as many rows as there is room for.
pub fn write_rows<T: Row>(rows: &[T], room: &mut [T::Form])
    ensures { room.new ≡ with_front (map T.form_of rows.now) room.old }
{
    let count = rows.len().min(room.len());
    for k in 0..count {
        room[k] = rows[k].form();
    }
}
