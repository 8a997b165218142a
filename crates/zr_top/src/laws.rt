//! The usage line, as a law.

ghost use Rattle.std.specs.Prelude.{◌≡◌, [], ◌∷◌, ◌++◌, codes};
ghost use Rattle.zr_top.specs.declared.report.TheConstants.{USAGE};

/// What is printed where the words are no command.
pub fn usage_line()
    ensures { USAGE.now ≡
        codes "usage: zrepl once|daemon|configcheck|status|plan FILE, or drill NUMBER; "
        ++ codes "options --workers N --ticks N --zfs PROGRAM" ++ 10 ∷ [] }
{}
