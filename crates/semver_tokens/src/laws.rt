//! A law over the definitions: the contract of a function that does nothing.
ghost use Rattle.std.specs.Prelude.{◌≡◌, List};
ghost use Rattle.semver_texts.specs.Texts.{Text};
ghost use Rattle.semver_tokens.specs.Tokens.{TokenValue, AreTokensOf};

/// A string has only one list of tokens and one rest.
pub fn one_token_list()
    ensures same_tokens { (text : Text) (ts us : List TokenValue) (rest other : Text) →
        AreTokensOf text ts rest → AreTokensOf text us other → (ts ≡ us) × (rest ≡ other) }
{}
