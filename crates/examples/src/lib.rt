// Document 01's examples P1 to P12, proved together from the written meanings. There is no code here.
#![tactic(auto)]
