//! A small terminal.

use std::alloc::{AllocError, Global};

/// How far an escape has come.
#[derive(Clone, Copy)]
enum Escape {
    /// Outside of one.
    Outside,
    /// Behind ESC.
    Opened,
    /// Behind ESC and a bracket.
    Inside,
}

/// A terminal that has as many rows as there are, of single bytes. It knows what moves the cursor in the first column and up, what erases all
/// behind the cursor, and whether lines are wrapped; other escapes do nothing.
#[derive(Drop)]
pub struct Small {
    alloc: Global,
    width: usize,
    rows: Vec<Vec<u8>>,
    row: usize,
    column: usize,
    wraps: bool,
    escape: Escape,
}

impl Small {
    /// An empty terminal of this width.
    pub fn new(alloc: Global, width: usize) -> Result<Small, AllocError> {
        let mut rows = Vec::new(alloc);
        rows.push(Vec::new(alloc))?;
        Ok(Small {
            alloc,
            width,
            rows,
            row: 0,
            column: 0,
            wraps: true,
            escape: Escape::Outside,
        })
    }

    /// Takes what is written to it.
    pub fn take(&mut self, bytes: &[u8]) -> Result<(), AllocError> {
        for byte in bytes {
            self.take_byte(*byte)?;
        }
        Ok(())
    }

    fn take_byte(&mut self, byte: u8) -> Result<(), AllocError> {
        match self.escape {
            Escape::Outside if byte == 27 => self.escape = Escape::Opened,
            Escape::Outside => self.put(byte)?,
            Escape::Opened if byte == b'[' => self.escape = Escape::Inside,
            Escape::Inside if !(64..=126).contains(&byte) => {}
            _ => {
                self.escape = Escape::Outside;
                self.obey(byte);
            }
        }
        Ok(())
    }

    /// Obeys an escape that ends by this letter.
    fn obey(&mut self, letter: u8) {
        match letter {
            b'A' => self.row = self.row.saturating_sub(1),
            b'J' => self.erase(),
            b'h' => self.wraps = true,
            b'l' => self.wraps = false,
            _ => {}
        }
    }

    fn erase(&mut self) {
        self.rows.truncate(self.row.saturating_add(1));
        let column = self.column;
        if let Some(row) = self.rows.as_mut_slice().get_mut(self.row) {
            row.truncate(column);
        }
    }

    fn put(&mut self, byte: u8) -> Result<(), AllocError> {
        match byte {
            b'\r' => self.column = 0,
            b'\n' => self.go_down()?,
            _ => {
                if self.column >= self.width {
                    if self.wraps {
                        self.go_down()?;
                    } else {
                        self.column = self.width.saturating_sub(1);
                    }
                }
                self.put_at_cursor(byte)?;
                self.column = self.column.saturating_add(1);
            }
        }
        Ok(())
    }

    fn go_down(&mut self) -> Result<(), AllocError> {
        self.column = 0;
        self.row = self.row.saturating_add(1);
        if self.row >= self.rows.len() {
            self.rows.push(Vec::new(self.alloc))?;
        }
        Ok(())
    }

    fn put_at_cursor(&mut self, byte: u8) -> Result<(), AllocError> {
        let column = self.column;
        if let Some(row) = self.rows.as_mut_slice().get_mut(self.row) {
            match row.as_mut_slice().get_mut(column) {
                Some(place) => *place = byte,
                None => row.push(byte)?,
            }
        }
        Ok(())
    }

    /// Tells its rows, and whether lines are cut.
    pub fn tell(&self, told: &mut String) -> Result<(), AllocError> {
        let mut is_first = true;
        for row in &self.rows {
            if !is_first {
                told.push('\n')?;
            }
            is_first = false;
            let text = String::from_utf8_lossy(self.alloc, row.as_slice())?;
            told.push_str(text.as_str())?;
        }
        if !self.wraps {
            told.push_str(" (cuts)")?;
        }
        Ok(())
    }
}
