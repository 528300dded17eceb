// Document 01's starred cases as one theorem on the definitions: specs/Cases has the table, proofs/Cases that it holds. And why a promise on rounds asks
// that ids do not collide: proofs/Colliding.
#![tactic(auto)]
