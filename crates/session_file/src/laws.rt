//! Laws of the bytes of all sessions, each the contract of a function that does nothing.

ghost use Rattle.session_file.specs.Laws.{SpellsOne, BeginsWithOne, NamesOneOrder};

/// Bytes spell at most one session.
pub fn bytes_spell_one_session()
    ensures { SpellsOne }
{}

/// Bytes begin with at most one session.
pub fn bytes_begin_with_one_session()
    ensures { BeginsWithOne }
{}

/// Bytes begin with at most one order of a session's acts.
pub fn bytes_name_one_order()
    ensures { NamesOneOrder }
{}
