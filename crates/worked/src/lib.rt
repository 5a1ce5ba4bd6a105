// Document 01's starred cases, proved about the definitions: the table is specs/Cases.antt, the statement proofs/Worked.antt.
#![tactic(auto)]
