//! The laws of tokens, each on a function that does nothing.

ghost use Rattle.check_laws.specs.LongestTokens.{RefusalsFollow, TokensFollow};

/// Each token of a text that has tokens is the longest spelling from its start, and its number is in range.
pub fn law_of_tokens()
    ensures { TokensFollow }
{}

/// A text without tokens has some up to a number that is out of range, which is 1264, or up to the bytes that no token begins with, which is 1064 there.
pub fn law_of_bad_tokens()
    ensures { RefusalsFollow }
{}
