//! The laws of reading and spelling. They are about the definitions in specs/: a function here does nothing,
//! and its contract says what has been proved.
ghost use Rattle.syntax.specs.Laws.{BytesDecideTokens, HexHasNoLeadingZero, HexReadsBack, NormalFormsSettle, ReadingCollectsTextAndUnit, ReadingTakesAllOnce, ReadingYieldsLawfulInTurn, TestDecidesLawful, WrittenReadsBack};
ghost use Rattle.syntax.specs.Puts.{AcceptedMayFinish, PutAddsOneToken};
ghost use Rattle.syntax.specs.Rows.{BadUrlRow, MixedRow, RowsHold};

#[tactic(auto, using(crate::proofs::Examples::rows_hold, crate::proofs::Examples::mixed_row, crate::proofs::Examples::bad_url_row))]
pub fn example_rows_read_and_write_as_tabled()
    ensures table { RowsHold }
    ensures mixed { MixedRow }
    ensures bad { BadUrlRow }
{}

/// Whatever is read is lawful or bad; whitespace comes behind a delim `\`, and a string, good or bad, behind a
/// function named url, with at most one whitespace between.
#[tactic(auto, using(crate::proofs::Turning::reading_yields_lawful_in_turn))]
pub fn reading_yields_lawful_tokens_in_turn()
    ensures { ReadingYieldsLawfulInTurn }
{}

/// A token passes the check `is_lawful` exactly when some input yields it and it is not bad.
#[tactic(auto, using(crate::proofs::Tested::test_decides_lawful))]
pub fn lawfulness_is_decided()
    ensures { TestDecidesLawful }
{}

/// The bytes of a list of lawful tokens in turn are well-formed, preprocessing changes nothing in them, and they read
/// back as exactly that list.
pub fn what_is_written_reads_back()
    ensures { WrittenReadsBack }
{}

/// Two such lists have the same bytes exactly when they are the same list.
#[tactic(auto, using(crate::proofs::Settling::bytes_decide_tokens))]
pub fn bytes_and_tokens_decide_each_other()
    ensures { BytesDecideTokens }
{}

/// The bytes of an input's collapsed tokens read back as those tokens, and doing it again changes no byte.
#[tactic(auto, using(crate::proofs::Settling::normal_forms_settle))]
pub fn normal_forms_are_settled()
    ensures { NormalFormsSettle }
{}

/// Each token takes at least one code point, and each code point lies in one token or comment.
#[tactic(auto, using(crate::proofs::Cutting::reading_takes_all_once, crate::proofs::Cutting::reading_collects_text_and_unit))]
pub fn reading_takes_everything_once()
    ensures takes { ReadingTakesAllOnce }
    ensures collects { ReadingCollectsTextAndUnit }
{}

/// The hex escape of a code point, of any size, reads back as that code point.
#[tactic(auto, using(crate::proofs::Hexes::hex_reads_back, crate::proofs::Hexes::hex_has_no_leading_zero))]
pub fn hex_escapes_read_back()
    ensures back { HexReadsBack }
    ensures minimal { HexHasNoLeadingZero }
{}

/// What one more token adds to the tokens that a writer has accepted, and when these may end.
#[tactic(auto, using(crate::proofs::Putting::put_adds_one_token, crate::proofs::Putting::accepted_may_finish))]
pub fn a_put_adds_one_token()
    ensures adds { PutAddsOneToken }
    ensures finishes { AcceptedMayFinish }
{}
