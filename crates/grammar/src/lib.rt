// The grammar of texts: no code, only what is proved of the reader's answers by the grammar.
#![tactic(auto)]
