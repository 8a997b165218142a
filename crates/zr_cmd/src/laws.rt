//! What holds of words, for those who read a record of children.

ghost use Rattle.std.specs.Prelude.{◌≡◌, ◌⊎◌, List, ℕ, Result, Ok, Err, Some};
ghost use Rattle.zr_cmd.specs.Calls.{call_of};
ghost use Rattle.zr_cmd.specs.Words.{IsNamed, Reads, Spells, words_of};
ghost use Rattle.zr_cmd.specs.declared.argv.ArgvFault.{ArgvFault};
ghost use Rattle.zr_cmd.specs.declared.argv.ArgvFault.TheVariants.{NoMemory};
ghost use Rattle.zr_cmd.specs.declared.forms.ZfsCall.{ZfsCall};

/// Words are those of one call at most, and what reads them finds that call where memory is not refused.
pub fn words_are_of_one_call()
    ensures one { (a b : ZfsCall) → IsNamed a → IsNamed b → words_of a ≡ words_of b → a ≡ b }
    ensures read_back { (words : List (List ℕ)) (given : ZfsCall)
        (result : Result ZfsCall ArgvFault) →
        Reads words result → Spells words given → (result ≡ Ok given) ⊎ (result ≡ Err NoMemory) }
    // The call whose words these are can be computed.
    ensures spelled { (words : List (List ℕ)) (given : ZfsCall) → call_of words ≡ Some given
        → words_of given ≡ words }
    ensures found { (given : ZfsCall) → IsNamed given → call_of (words_of given) ≡ Some given }
{}
