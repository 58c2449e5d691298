//! A font, and tables, that C holds by a pointer.
//!
//! The two handles have one form: what a handle owns is stated by the row of its type in memory, which no type
//! parameter gives.
ghost use Rattle.std.specs.Prelude.{◌≡◌, Option, Some, None, IfSome, IfNone, MatchOption};
ghost use Rattle.c_text.specs.Fonts.{KeptFont};
ghost use Rattle.c_text.specs.contracts.font.Font.{the_row};
ghost use Rattle.c_text.specs.contracts.input.Tables.{the_row as tables_row};
ghost use Rattle.shell_readers.specs.declared.tables.TextTables.{TextTables};
ghost use Rattle.std.specs.contracts.impls.GlobalAllocator.TheImpl.{ghosts};
ghost use Rattle.std.specs.Box.Ownership.{box_owns};
ghost use Rattle.c_text.specs.Ownership.{handle_owns};

use crate::font::Font;
use crate::input::Tables;
use crate::pointer::BoxPointer;
use std::alloc::Global;
use std::marker::Model;
use std::{mem, ptr};

/// What C holds: the address of a font, where it is live.
#[repr(C)]
pub struct Handle {
    at: *mut u8,
    live: bool,
    alloc: Global,
    pub ghost value: { Option KeptFont },
}

impl Model for Handle {
    ghost also_owns = { λ h. handle_owns (box_owns (ghosts.dealloc_token h.alloc) the_row h.at) h.live h.value };
}

impl Handle {
    /// No font.
    pub fn empty(alloc: Global) -> Handle
        ensures { result.value ≡ None }
    {
        Handle {
            at: ptr::null_mut(),
            live: false,
            alloc,
        }
    }

    /// The handle of a font.
    pub fn of(font: BoxPointer<Font, Global>) -> Handle
        ensures { result.value ≡ Some font.value }
    {
        let BoxPointer { at, alloc } = font;
        Handle {
            at: at as *mut u8,
            live: true,
            alloc,
        }
    }

    /// The font of a handle, if it has one.
    pub fn open(self) -> Option<BoxPointer<Font, Global>>
        ensures some { IfSome result (λ l. self.value ≡ Some l.value) }
        ensures none { IfNone result (self.value ≡ None) }
    {
        let Handle { at, live, alloc } = self;
        if live {
            Some(BoxPointer {
                at: at as *mut Font,
                alloc,
            })
        } else {
            None
        }
    }

    /// Takes the font out, and leaves no font.
    pub fn take(&mut self, alloc: Global) -> Option<Box<Font>>
        ensures emptied { self.new.value ≡ None }
        ensures font { MatchOption result (self.old.value ≡ None) (λ f. self.old.value ≡ Some f.value) }
    {
        match mem::replace(self, Handle::empty(alloc)).open() {
            Some(pointer) => Some(pointer.into_box()),
            None => None,
        }
    }

    /// Puts a font in; one that was there is dropped.
    pub fn put(&mut self, alloc: Global, font: Box<Font>)
        ensures { self.new.value ≡ Some font.value }
    {
        let before = self.take(alloc);
        drop(before);
        let empty = mem::replace(self, Handle::of(BoxPointer::from_box(font)));
        if let Some(pointer) = empty.open() {
            drop(pointer.into_box());
        }
    }
}

/// What C holds: the address of tables, where they are live.
#[repr(C)]
pub struct TablesHandle {
    at: *mut u8,
    live: bool,
    alloc: Global,
    pub ghost value: { Option TextTables },
}

impl Model for TablesHandle {
    ghost also_owns = { λ h. handle_owns (box_owns (ghosts.dealloc_token h.alloc) tables_row h.at) h.live h.value };
}

impl TablesHandle {
    /// No tables.
    pub fn empty(alloc: Global) -> TablesHandle
        ensures { result.value ≡ None }
    {
        TablesHandle {
            at: ptr::null_mut(),
            live: false,
            alloc,
        }
    }

    /// The handle of tables.
    pub fn of(tables: BoxPointer<Tables, Global>) -> TablesHandle
        ensures { result.value ≡ Some tables.value }
    {
        let BoxPointer { at, alloc } = tables;
        TablesHandle {
            at: at as *mut u8,
            live: true,
            alloc,
        }
    }

    /// The tables of a handle, if it has some.
    pub fn open(self) -> Option<BoxPointer<Tables, Global>>
        ensures some { IfSome result (λ l. self.value ≡ Some l.value) }
        ensures none { IfNone result (self.value ≡ None) }
    {
        let TablesHandle { at, live, alloc } = self;
        if live {
            Some(BoxPointer {
                at: at as *mut Tables,
                alloc,
            })
        } else {
            None
        }
    }

    /// Takes the tables out, and leaves none.
    pub fn take(&mut self, alloc: Global) -> Option<Box<Tables>>
        ensures emptied { self.new.value ≡ None }
        ensures tables { MatchOption result (self.old.value ≡ None) (λ f. self.old.value ≡ Some f.value) }
    {
        match mem::replace(self, TablesHandle::empty(alloc)).open() {
            Some(pointer) => Some(pointer.into_box()),
            None => None,
        }
    }

    /// Puts tables in; those that were there are let go.
    pub fn put(&mut self, alloc: Global, tables: Box<Tables>)
        ensures { self.new.value ≡ Some tables.value }
    {
        let before = self.take(alloc);
        drop(before);
        let empty = mem::replace(self, TablesHandle::of(BoxPointer::from_box(tables)));
        if let Some(pointer) = empty.open() {
            drop(pointer.into_box());
        }
    }
}
