// Cases of documents 01 and 02, and document 01's numbers, proved by computing the definitions; no code.
// specs/Cases.antt has document 01's cases and specs/Given.antt its numbers; specs/Rewriting.antt has those of document 02, §1, and
// specs/Listening.antt those of §3.
#![tactic(auto)]
