//! What a record of children says of commands, as laws for those who read one.

ghost use Rattle.zr_exec.specs.declared.spawn.TheConstants.{LISTING_LIMIT};
ghost use Rattle.std.specs.Prelude.{◌≡◌, List, Some, false, ℕ};
ghost use Rattle.zr_cmd.specs.Words.{Spells, words_of};
ghost use Rattle.zr_cmd.specs.declared.forms.ZfsCall.TheVariants as call;
ghost use Rattle.zr_exec.specs.Answering.{IsAnswer};
ghost use Rattle.zr_exec.specs.Commands.{command_of, transfer_of};
ghost use Rattle.zr_exec.specs.Entries.{answer_of};
ghost use Rattle.zr_exec.specs.Listed.{listed_by};
ghost use Rattle.zr_exec.specs.Serving.{SpellsPipe};
ghost use Rattle.zr_exec.specs.declared.spawn.RunExit.{RunExit};
ghost use Rattle.zr_world.specs.Answering.{is_no_memory};
ghost use Rattle.zr_command.specs.Plain.{plain_transfer};
ghost use Rattle.zr_command.specs.declared.command.Answer.{Answer};
ghost use Rattle.zr_command.specs.declared.command.Cmd.{Cmd};
ghost use Rattle.zr_command.specs.declared.command.Transfer.{Transfer};

/// A recorded call is read as the one command whose words it has, and with the one answer that the rule
/// for its exit and its bytes allows; a recorded pipe as the one transfer whose words it has, without guids.
pub fn calls_are_read_by_the_rule()
    ensures command { (words : List (List ℕ)) (command : Cmd) →
        Spells words (call.One command) → command_of words ≡ Some command }
    ensures words { (words : List (List ℕ)) (command : Cmd) →
        command_of words ≡ Some command → words ≡ words_of (call.One command) }
    ensures transfer { (send receive : List (List ℕ)) (transfer : Transfer) →
        SpellsPipe send receive transfer
        → transfer_of send receive ≡ Some (plain_transfer transfer) }
    ensures answer { (command : Cmd) (ended : RunExit) (bytes : List ℕ) (given : Answer) →
        IsAnswer (listed_by command) ended bytes given → is_no_memory given ≡ false →
        answer_of (listed_by command) ended bytes ≡ given }
{}

/// The most bytes of what a child writes that are read: 32 MiB.
pub fn listing_limit()
    ensures { LISTING_LIMIT ≡ 33554432 }
{}
