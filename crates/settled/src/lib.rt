// A theory: the settled examples as one table, and that the definitions answer each as the table says.

#![tactic(auto)]
