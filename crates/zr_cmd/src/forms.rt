//! The table of forms: which words each call has. Both the writer and the reader go by it.

use zr_command::Cmd;
use zr_names::{MarkName, Path, SnapName, TokenText};

/// One call of `zfs`, as its words tell it.
#[derive(Drop)]
pub enum ZfsCall {
    /// A command that is one call; a transfer is none.
    One(Cmd),
    /// Sends a whole snapshot (zfs-send(8)).
    SendFull(Path, SnapName),
    /// Sends what changed since a bookmark of the same dataset (zfs-send(8), `-i`).
    SendFrom(Path, MarkName, SnapName),
    /// Sends from where an interrupted receive stopped (zfs-send(8), `-t`).
    SendToken(TokenText),
    /// Receives into a dataset, by force or not (zfs-receive(8), `-F`).
    Receive(Path, bool),
}

/// What one word of a form is.
#[derive(Clone, Copy)]
pub enum Part {
    /// This text.
    Fixed(&'static str),
    /// The path of a dataset.
    Path,
    /// The full name of a snapshot.
    Snap,
    /// The path of a dataset and the names of some of its snapshots.
    Group,
    /// The full name of a bookmark.
    Mark,
    /// The full name of a snapshot of the dataset in the word before.
    SnapOfSame,
    /// The full name of a bookmark of the dataset in the word before.
    MarkOfSame,
    /// The tag of a job.
    Tag,
    /// A resume token.
    Token,
}

/// How the words of a call are laid out.
#[derive(Clone, Copy, PartialEq, Eq)]
pub enum Form {
    Sets,
    Versions,
    Holds,
    Token,
    Snapshot,
    Hold,
    Release,
    BookmarkSnap,
    BookmarkMark,
    DestroySnaps,
    DestroyMark,
    Create,
    SendFull,
    SendFrom,
    SendToken,
    Receive,
    ReceiveForced,
    Abort,
}

pub(crate) const FORMS: [Form; 18] = [
    Form::Sets,
    Form::Versions,
    Form::Holds,
    Form::Token,
    Form::Snapshot,
    Form::Hold,
    Form::Release,
    Form::BookmarkSnap,
    Form::BookmarkMark,
    Form::DestroySnaps,
    Form::DestroyMark,
    Form::Create,
    Form::SendFull,
    Form::SendFrom,
    Form::SendToken,
    Form::Receive,
    Form::ReceiveForced,
    Form::Abort,
];

const SETS: [Part; 7] = [
    Part::Fixed("list"),
    Part::Fixed("-H"),
    Part::Fixed("-p"),
    Part::Fixed("-t"),
    Part::Fixed("filesystem,volume"),
    Part::Fixed("-o"),
    Part::Fixed("name,zrepl:placeholder,receive_resume_token"),
];

const VERSIONS: [Part; 12] = [
    Part::Fixed("list"),
    Part::Fixed("-H"),
    Part::Fixed("-p"),
    Part::Fixed("-d"),
    Part::Fixed("1"),
    Part::Fixed("-t"),
    Part::Fixed("snapshot,bookmark"),
    Part::Fixed("-s"),
    Part::Fixed("createtxg"),
    Part::Fixed("-o"),
    Part::Fixed("name,guid,createtxg,creation,userrefs"),
    Part::Path,
];

const HOLDS: [Part; 3] = [Part::Fixed("holds"), Part::Fixed("-H"), Part::Snap];

const TOKEN: [Part; 3] = [Part::Fixed("send"), Part::Fixed("-nvt"), Part::Token];

const SNAPSHOT: [Part; 2] = [Part::Fixed("snapshot"), Part::Snap];

const HOLD: [Part; 3] = [Part::Fixed("hold"), Part::Tag, Part::Snap];

const RELEASE: [Part; 3] = [Part::Fixed("release"), Part::Tag, Part::Snap];

const BOOKMARK_SNAP: [Part; 3] = [Part::Fixed("bookmark"), Part::Snap, Part::MarkOfSame];

const BOOKMARK_MARK: [Part; 3] = [Part::Fixed("bookmark"), Part::Mark, Part::MarkOfSame];

const DESTROY_SNAPS: [Part; 2] = [Part::Fixed("destroy"), Part::Group];

const DESTROY_MARK: [Part; 2] = [Part::Fixed("destroy"), Part::Mark];

const CREATE: [Part; 6] = [
    Part::Fixed("create"),
    Part::Fixed("-o"),
    Part::Fixed("zrepl:placeholder=on"),
    Part::Fixed("-o"),
    Part::Fixed("mountpoint=none"),
    Part::Path,
];

const SEND_FULL: [Part; 2] = [Part::Fixed("send"), Part::Snap];

const SEND_FROM: [Part; 4] = [
    Part::Fixed("send"),
    Part::Fixed("-i"),
    Part::Mark,
    Part::SnapOfSame,
];

const SEND_TOKEN: [Part; 3] = [Part::Fixed("send"), Part::Fixed("-t"), Part::Token];

const RECEIVE: [Part; 4] = [
    Part::Fixed("receive"),
    Part::Fixed("-s"),
    Part::Fixed("-u"),
    Part::Path,
];

const RECEIVE_FORCED: [Part; 5] = [
    Part::Fixed("receive"),
    Part::Fixed("-s"),
    Part::Fixed("-u"),
    Part::Fixed("-F"),
    Part::Path,
];

const ABORT: [Part; 3] = [Part::Fixed("receive"), Part::Fixed("-A"), Part::Path];

impl Form {
    ghost use Rattle.std.specs.Prelude.{◌≡◌, map};
    ghost use Rattle.zr_cmd.specs.Forms.{pattern_of, patterns_of};

    #[tactic(auto, unfolding(crate::specs::Words::sets_words, crate::specs::Words::versions_words))]
    pub(crate) fn parts(self) -> &'static [Part]
        ensures { map pattern_of result.now ≡ patterns_of self }
    {
        match self {
            Form::Sets => &SETS,
            Form::Versions => &VERSIONS,
            Form::Holds => &HOLDS,
            Form::Token => &TOKEN,
            Form::Snapshot => &SNAPSHOT,
            Form::Hold => &HOLD,
            Form::Release => &RELEASE,
            Form::BookmarkSnap => &BOOKMARK_SNAP,
            Form::BookmarkMark => &BOOKMARK_MARK,
            Form::DestroySnaps => &DESTROY_SNAPS,
            Form::DestroyMark => &DESTROY_MARK,
            Form::Create => &CREATE,
            Form::SendFull => &SEND_FULL,
            Form::SendFrom => &SEND_FROM,
            Form::SendToken => &SEND_TOKEN,
            Form::Receive => &RECEIVE,
            Form::ReceiveForced => &RECEIVE_FORCED,
            Form::Abort => &ABORT,
        }
    }
}
