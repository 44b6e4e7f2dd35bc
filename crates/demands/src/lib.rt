// What joins the demands on texts, runs and presentations, as theorems about the definitions: there is no code here.
#![tactic(auto)]
