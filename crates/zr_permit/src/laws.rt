//! What holds of transcripts, for those who read a record.

ghost use Rattle.std.specs.Prelude.{◌≡◌};
ghost use Rattle.zr_names.specs.declared.unit.Unit.{Unit};
ghost use Rattle.zr_jobset.specs.Sets.{Jobs};
ghost use Rattle.zr_permit.specs.Transcript.{Legal, Transcript};
ghost use Rattle.zr_permit.specs.Turned.{calls};

/// A record, in which a command stands as its words tell it, is read as one legal transcript at most.
pub fn a_record_is_read_in_one_way()
    ensures { (jobs : Jobs) (unit : Unit) (one other : Transcript) → Legal jobs unit one
        → Legal jobs unit other →
        calls one ≡ calls other → one ≡ other }
{}
