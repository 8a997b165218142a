//! The names of ZFS and of jobs: one type for each, which only its reader makes.

use std::marker::Model;
use zr_base::Bytes;

/// The longest path, in bytes.
pub const PATH_LIMIT: usize = 255;

/// The longest name of a snapshot or a bookmark and the longest tag, in bytes.
pub const NAME_LIMIT: usize = 255;

/// The longest name of a job and the longest prefix, in bytes.
pub const JOB_LIMIT: usize = 64;

/// The longest resume token, in bytes.
pub const TOKEN_LIMIT: usize = 4096;

/// The path of a dataset, as `tank/home`: at most 255 bytes (zfs(8), "names").
#[derive(Clone, PartialEq, Eq, PartialOrd, Ord, Drop)]
pub struct Path {
    text: Bytes,
}

impl Model for Path {
    ghost use Rattle.std.specs.Prelude.{List, ℕ};
    ghost use Rattle.zr_names.specs.Names.{IsName, path_is_bad};
    ghost use Rattle.zr_names.specs.declared.names.TheConstants.{PATH_LIMIT};

    ghost Value = { List ℕ };

    ghost view = { λ n. n.text };

    ghost inverse = { λ bytes. record { text = bytes } };

    ghost invariant = { λ n. IsName path_is_bad PATH_LIMIT n.text };
}

impl Path {
    ghost use Rattle.std.specs.Prelude.{◌≡◌};
    ghost use Rattle.zr_names.specs.Names.{IsName, path_is_bad};

    /// The name of these bytes; `reading` has the test.
    pub fn new(text: Bytes) -> Path
        requires { IsName path_is_bad PATH_LIMIT text }
        ensures { result ≡ text }
    {
        Path { text }
    }

    pub fn as_bytes(&self) -> &[u8]
        ensures value { result.now ≡ self.now }
        ensures name { IsName path_is_bad PATH_LIMIT self.now }
    {
        self.text.as_slice()
    }
}

/// The name of a snapshot, the part behind the `@`: at most 255 bytes.
#[derive(Clone, PartialEq, Eq, PartialOrd, Ord, Drop)]
pub struct SnapName {
    text: Bytes,
}

impl Model for SnapName {
    ghost use Rattle.std.specs.Prelude.{List, ℕ};
    ghost use Rattle.zr_names.specs.Names.{IsName, name_is_bad};
    ghost use Rattle.zr_names.specs.declared.names.TheConstants.{NAME_LIMIT};

    ghost Value = { List ℕ };

    ghost view = { λ n. n.text };

    ghost inverse = { λ bytes. record { text = bytes } };

    ghost invariant = { λ n. IsName name_is_bad NAME_LIMIT n.text };
}

impl SnapName {
    ghost use Rattle.std.specs.Prelude.{◌≡◌};
    ghost use Rattle.zr_names.specs.Names.{IsName, name_is_bad};

    /// The name of these bytes; `reading` has the test.
    pub fn new(text: Bytes) -> SnapName
        requires { IsName name_is_bad NAME_LIMIT text }
        ensures { result ≡ text }
    {
        SnapName { text }
    }

    pub fn as_bytes(&self) -> &[u8]
        ensures value { result.now ≡ self.now }
        ensures name { IsName name_is_bad NAME_LIMIT self.now }
    {
        self.text.as_slice()
    }
}

/// The name of a bookmark, the part behind the `#`: at most 255 bytes.
#[derive(Clone, PartialEq, Eq, PartialOrd, Ord, Drop)]
pub struct MarkName {
    text: Bytes,
}

impl Model for MarkName {
    ghost use Rattle.std.specs.Prelude.{List, ℕ};
    ghost use Rattle.zr_names.specs.Names.{IsName, name_is_bad};
    ghost use Rattle.zr_names.specs.declared.names.TheConstants.{NAME_LIMIT};

    ghost Value = { List ℕ };

    ghost view = { λ n. n.text };

    ghost inverse = { λ bytes. record { text = bytes } };

    ghost invariant = { λ n. IsName name_is_bad NAME_LIMIT n.text };
}

impl MarkName {
    ghost use Rattle.std.specs.Prelude.{◌≡◌};
    ghost use Rattle.zr_names.specs.Names.{IsName, name_is_bad};

    /// The name of these bytes; `reading` has the test.
    pub fn new(text: Bytes) -> MarkName
        requires { IsName name_is_bad NAME_LIMIT text }
        ensures { result ≡ text }
    {
        MarkName { text }
    }

    pub fn as_bytes(&self) -> &[u8]
        ensures value { result.now ≡ self.now }
        ensures name { IsName name_is_bad NAME_LIMIT self.now }
    {
        self.text.as_slice()
    }
}

/// The name of a job or of a served listener: at most 64 bytes.
#[derive(Clone, PartialEq, Eq, Drop)]
pub struct JobName {
    text: Bytes,
}

impl Model for JobName {
    ghost use Rattle.std.specs.Prelude.{List, ℕ};
    ghost use Rattle.zr_names.specs.Names.{IsName, name_is_bad};
    ghost use Rattle.zr_names.specs.declared.names.TheConstants.{JOB_LIMIT};

    ghost Value = { List ℕ };

    ghost view = { λ n. n.text };

    ghost inverse = { λ bytes. record { text = bytes } };

    ghost invariant = { λ n. IsName name_is_bad JOB_LIMIT n.text };
}

impl JobName {
    ghost use Rattle.std.specs.Prelude.{◌≡◌};
    ghost use Rattle.zr_names.specs.Names.{IsName, name_is_bad};

    /// The name of these bytes; `reading` has the test.
    pub fn new(text: Bytes) -> JobName
        requires { IsName name_is_bad JOB_LIMIT text }
        ensures { result ≡ text }
    {
        JobName { text }
    }

    pub fn as_bytes(&self) -> &[u8]
        ensures value { result.now ≡ self.now }
        ensures name { IsName name_is_bad JOB_LIMIT self.now }
    {
        self.text.as_slice()
    }
}

/// What the names of a job's snapshots begin with: at most 64 bytes.
#[derive(Clone, PartialEq, Eq, Drop)]
pub struct Prefix {
    text: Bytes,
}

impl Model for Prefix {
    ghost use Rattle.std.specs.Prelude.{List, ℕ};
    ghost use Rattle.zr_names.specs.Names.{IsName, name_is_bad};
    ghost use Rattle.zr_names.specs.declared.names.TheConstants.{JOB_LIMIT};

    ghost Value = { List ℕ };

    ghost view = { λ n. n.text };

    ghost inverse = { λ bytes. record { text = bytes } };

    ghost invariant = { λ n. IsName name_is_bad JOB_LIMIT n.text };
}

impl Prefix {
    ghost use Rattle.std.specs.Prelude.{◌≡◌};
    ghost use Rattle.zr_names.specs.Names.{IsName, name_is_bad};

    /// The name of these bytes; `reading` has the test.
    pub fn new(text: Bytes) -> Prefix
        requires { IsName name_is_bad JOB_LIMIT text }
        ensures { result ≡ text }
    {
        Prefix { text }
    }

    pub fn as_bytes(&self) -> &[u8]
        ensures value { result.now ≡ self.now }
        ensures name { IsName name_is_bad JOB_LIMIT self.now }
    {
        self.text.as_slice()
    }
}

/// The tag of a hold (zfs-hold(8)): at most 255 bytes, of any kind but tab and newline.
#[derive(Clone, PartialEq, Eq, Drop)]
pub struct Tag {
    text: Bytes,
}

impl Model for Tag {
    ghost use Rattle.std.specs.Prelude.{List, ℕ};
    ghost use Rattle.zr_names.specs.Names.{IsName, tag_is_bad};
    ghost use Rattle.zr_names.specs.declared.names.TheConstants.{NAME_LIMIT};

    ghost Value = { List ℕ };

    ghost view = { λ n. n.text };

    ghost inverse = { λ bytes. record { text = bytes } };

    ghost invariant = { λ n. IsName tag_is_bad NAME_LIMIT n.text };
}

impl Tag {
    ghost use Rattle.std.specs.Prelude.{◌≡◌};
    ghost use Rattle.zr_names.specs.Names.{IsName, tag_is_bad};

    /// The name of these bytes; `reading` has the test.
    pub fn new(text: Bytes) -> Tag
        requires { IsName tag_is_bad NAME_LIMIT text }
        ensures { result ≡ text }
    {
        Tag { text }
    }

    pub fn as_bytes(&self) -> &[u8]
        ensures value { result.now ≡ self.now }
        ensures name { IsName tag_is_bad NAME_LIMIT self.now }
    {
        self.text.as_slice()
    }
}

/// A resume token as `receive_resume_token` shows it (zfs-send(8)): at most 4,096 bytes.
#[derive(Clone, PartialEq, Eq, Drop)]
pub struct TokenText {
    text: Bytes,
}

impl Model for TokenText {
    ghost use Rattle.std.specs.Prelude.{List, ℕ};
    ghost use Rattle.zr_names.specs.Names.{IsName, token_is_bad};
    ghost use Rattle.zr_names.specs.declared.names.TheConstants.{TOKEN_LIMIT};

    ghost Value = { List ℕ };

    ghost view = { λ n. n.text };

    ghost inverse = { λ bytes. record { text = bytes } };

    ghost invariant = { λ n. IsName token_is_bad TOKEN_LIMIT n.text };
}

impl TokenText {
    ghost use Rattle.std.specs.Prelude.{◌≡◌};
    ghost use Rattle.zr_names.specs.Names.{IsName, token_is_bad};

    /// The name of these bytes; `reading` has the test.
    pub fn new(text: Bytes) -> TokenText
        requires { IsName token_is_bad TOKEN_LIMIT text }
        ensures { result ≡ text }
    {
        TokenText { text }
    }

    pub fn as_bytes(&self) -> &[u8]
        ensures value { result.now ≡ self.now }
        ensures name { IsName token_is_bad TOKEN_LIMIT self.now }
    {
        self.text.as_slice()
    }
}
