// P1 to P12 of document 01 and the first codes of document 02's test load, proved of the definitions. No code.
#![tactic(auto)]
