//! What holds of names, marks and limits, for those who spell them.

ghost use Rattle.zr_names.specs.declared.names.TheConstants.{JOB_LIMIT, NAME_LIMIT, PATH_LIMIT, TOKEN_LIMIT};
ghost use Rattle.std.specs.Prelude.{◌≡◌, ◌≢◌, ◌<◌, ◌^◌, List, ℕ};
ghost use Rattle.zr_names.specs.Marks.{cursor_text, HasGuid, IsMark, mark_kind, old_cursor_text, tag_text, tentative_text};
ghost use Rattle.zr_names.specs.declared.marks.MarkKind.{MarkKind};
ghost use Rattle.zr_names.specs.declared.marks.MarkKind.TheVariants.{Other};
ghost use Rattle.zr_names.specs.declared.marks.TagKind.{TagKind};

/// Tags of different kinds or jobs differ.
pub fn tags_differ()
    ensures { (a b : TagKind) (j k : List ℕ) → tag_text a j ≡ tag_text b k → (a ≡ b) × (j ≡ k) }
{}

/// The names of marks of different kinds, guids or jobs differ.
pub fn mark_names_differ()
    ensures cursors { (g h : ℕ) (j k : List ℕ) → g < 2 ^ 64 → h < 2 ^ 64 →
        cursor_text g j ≡ cursor_text h k → (g ≡ h) × (j ≡ k) }
    ensures tentatives { (g h : ℕ) (j k : List ℕ) → g < 2 ^ 64 → h < 2 ^ 64 →
        tentative_text g j ≡ tentative_text h k → (g ≡ h) × (j ≡ k) }
    ensures kinds { (g h : ℕ) (j k : List ℕ) → cursor_text g j ≢ tentative_text h k }
    ensures old_cursor { (g : ℕ) (j : List ℕ) → cursor_text g j ≢ old_cursor_text }
    ensures old_tentative { (g : ℕ) (j : List ℕ) → tentative_text g j ≢ old_cursor_text }
{}

/// A name is one mark of a job, so that what a mark's name was made from is read back from it; to any other job it is none.
pub fn a_name_is_one_mark()
    ensures some { (name job : List ℕ) → IsMark name job (mark_kind name job) }
    ensures one { (name job : List ℕ) (a b : MarkKind) → HasGuid a → HasGuid b →
        IsMark name job a → IsMark name job b → a ≡ b }
    ensures other_cursor { (j k : List ℕ) (g : ℕ) → g < 2 ^ 64 → j ≢ k →
        (kind : MarkKind) → HasGuid kind → IsMark (cursor_text g j) k kind → kind ≡ Other }
    ensures other_tentative { (j k : List ℕ) (g : ℕ) → g < 2 ^ 64 → j ≢ k →
        (kind : MarkKind) → HasGuid kind → IsMark (tentative_text g j) k kind → kind ≡ Other }
{}

/// The most bytes of a path, of another name of ZFS, of a job's name or a prefix, and of a resume token.
pub fn limits_of_names()
    ensures path { PATH_LIMIT ≡ 255 }
    ensures name { NAME_LIMIT ≡ 255 }
    ensures job { JOB_LIMIT ≡ 64 }
    ensures token { TOKEN_LIMIT ≡ 4096 }
{}
