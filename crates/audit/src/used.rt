//! What a command did at one path.

ghost use Rattle.std.specs.Prelude.{◌≡◌, false};
ghost use Rattle.audit.specs.Uses.{is_new, stands, unused, with_deed};

use trace::Deed;

/// What a command did at one path, in sum.
#[derive(Clone, Copy)]
pub struct Use {
    /// It read what stood there before it wrote there.
    pub reads: bool,
    /// It asked for what stood there before it wrote there.
    pub asks: bool,
    /// It asked, and nothing was there.
    pub misses: bool,
    /// It listed the folder there, or gave it another path, and had not made it itself.
    pub lists: bool,
    /// It wrote there.
    pub writes: bool,
    /// It removed what stood there before it wrote there.
    pub removes: bool,
    /// What it wrote last is gone.
    pub gone: bool,
    /// It made anew what stands there.
    pub own: bool,
    /// It read what it had not made anew.
    pub takes: bool,
    /// It wrote into what stood there before, and has not made it anew since.
    pub keeps: bool,
    /// It set the stamp of what stood there before, and has not made it anew since.
    pub stamps: bool,
    /// A folder is there.
    pub is_folder: bool,
    /// It made that folder.
    pub made_folder: bool,
}

impl Use {
    /// Nothing.
    pub fn none() -> Use
        ensures { result ≡ unused }
    {
        Use {
            reads: false,
            asks: false,
            misses: false,
            lists: false,
            writes: false,
            removes: false,
            gone: false,
            own: false,
            takes: false,
            keeps: false,
            stamps: false,
            is_folder: false,
            made_folder: false,
        }
    }

    /// Whether a file stands there, as far as it was seen.
    pub fn stands(self) -> bool
        ensures { result ≡ stands self }
    {
        (self.writes || self.reads || self.asks) && !self.gone
    }

    /// Whether nothing of an earlier run stands there.
    fn is_new(self) -> bool
        ensures { result ≡ is_new self }
    {
        self.own || self.misses || self.removes || self.gone
    }

    /// The same, and this deed after it.
    pub fn with(self, deed: Deed) -> Use
        ensures { result ≡ with_deed self deed }
    {
        match deed {
            Deed::Read => Use {
                reads: self.reads || !self.writes,
                takes: self.takes || !self.is_new(),
                ..self
            },
            Deed::Asked => Use {
                asks: self.asks || !self.writes,
                ..self
            },
            Deed::Missed => Use {
                misses: true,
                ..self
            },
            Deed::Listed => Use {
                lists: self.lists || !self.made_folder,
                ..self
            },
            Deed::Wrote | Deed::Linked | Deed::Moved | Deed::Led | Deed::Emptied => Use {
                writes: true,
                gone: false,
                own: true,
                keeps: false,
                stamps: false,
                ..self
            },
            Deed::Into => Use {
                writes: true,
                gone: false,
                own: self.is_new(),
                keeps: self.keeps || !self.is_new(),
                ..self
            },
            Deed::Stamped => Use {
                writes: true,
                gone: false,
                stamps: self.stamps || !self.is_new(),
                ..self
            },
            Deed::Removed => Use {
                removes: self.removes || !self.writes,
                gone: true,
                stamps: false,
                ..self
            },
            Deed::Left => Use {
                removes: self.removes || !(self.writes || self.made_folder),
                gone: true,
                stamps: false,
                lists: self.lists || (self.is_folder && !self.made_folder),
                ..self
            },
            Deed::Folder => Use {
                is_folder: true,
                ..self
            },
            Deed::Made => Use {
                is_folder: true,
                made_folder: true,
                ..self
            },
            Deed::Sought | Deed::Connected => self,
        }
    }
}
