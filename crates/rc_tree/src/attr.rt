//! The attributes of an entry, and how they are stored.

ghost use Rattle.std.specs.Prelude.{◌≡◌, ◌≢◌, ◌<◌, ◌^◌, IfSome, IfNone};
ghost use Rattle.rc_tree.specs.declared.attr.Attr.{Attr};
ghost use Rattle.rc_tree.specs.Attr.{attribute_bits, stored_of, compared};

/// What an entry is.
#[derive(Clone, Copy, Debug, PartialEq, Eq)]
pub enum Kind {
    File,
    Dir,
}

/// An entry's attributes: those of MS-FSCC, section 2.6, that a mirror knows. Whether the entry is a directory is its
/// [`Kind`].
#[derive(Clone, Copy, Debug, PartialEq, Eq)]
pub struct Attr {
    /// READONLY 0x1, the letter R.
    pub readonly: bool,
    /// HIDDEN 0x2, H.
    pub hidden: bool,
    /// SYSTEM 0x4, S.
    pub system: bool,
    /// ARCHIVE 0x20, A.
    pub archive: bool,
    /// TEMPORARY 0x100, T.
    pub temporary: bool,
    /// SPARSE_FILE 0x200, P in a site text.
    pub sparse: bool,
    /// COMPRESSED 0x800, C.
    pub compressed: bool,
    /// OFFLINE 0x1000, O.
    pub offline: bool,
    /// NOT_CONTENT_INDEXED 0x2000, N.
    pub not_indexed: bool,
    /// ENCRYPTED 0x4000, E.
    pub encrypted: bool,
}

impl Attr {
    /// No attribute.
    pub const NONE: Attr = Attr {
        readonly: false,
        hidden: false,
        system: false,
        archive: false,
        temporary: false,
        sparse: false,
        compressed: false,
        offline: false,
        not_indexed: false,
        encrypted: false,
    };

    /// The attributes that are stored as `stored` at an entry of this kind. A directory's stored form has DIRECTORY
    /// 0x10, and NORMAL 0x80 stands alone at a file without any other; `None` at whatever is stored at no entry of
    /// the kind.
    pub fn read(stored: u32, kind: Kind) -> Option<Attr>
        ensures read { IfSome result (λ attr. stored_of kind attr ≡ stored) }
        ensures refused { IfNone result ((attr : Attr) → stored_of kind attr ≢ stored) }
    {
        let attr = Attr {
            readonly: stored & 0x1 != 0,
            hidden: stored & 0x2 != 0,
            system: stored & 0x4 != 0,
            archive: stored & 0x20 != 0,
            temporary: stored & 0x100 != 0,
            sparse: stored & 0x200 != 0,
            compressed: stored & 0x800 != 0,
            offline: stored & 0x1000 != 0,
            not_indexed: stored & 0x2000 != 0,
            encrypted: stored & 0x4000 != 0,
        };
        if attr.stored(kind) == stored {
            Some(attr)
        } else {
            None
        }
    }

    /// The stored form, as file systems keep it.
    pub fn stored(self, kind: Kind) -> u32
        ensures { result ≡ stored_of kind self }
    {
        let bits = self.bits();
        match kind {
            Kind::Dir => bits + 0x10,
            Kind::File if bits == 0 => 0x80,
            Kind::File => bits,
        }
    }

    fn bits(self) -> u32
        ensures value { result ≡ attribute_bits self }
        ensures bound { result < 2 ^ 16 }
    {
        u32::from(self.readonly)
            + u32::from(self.hidden) * 0x2
            + u32::from(self.system) * 0x4
            + u32::from(self.archive) * 0x20
            + u32::from(self.temporary) * 0x100
            + u32::from(self.sparse) * 0x200
            + u32::from(self.compressed) * 0x800
            + u32::from(self.offline) * 0x1000
            + u32::from(self.not_indexed) * 0x2000
            + u32::from(self.encrypted) * 0x4000
    }

    /// The attributes that a mirror compares and copies: R, A, S, H, N and T.
    pub fn compared(self) -> Attr
        ensures { result ≡ compared self }
    {
        Attr {
            readonly: self.readonly,
            hidden: self.hidden,
            system: self.system,
            archive: self.archive,
            temporary: self.temporary,
            not_indexed: self.not_indexed,
            ..Attr::NONE
        }
    }
}
