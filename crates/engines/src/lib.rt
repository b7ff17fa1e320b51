// No code: runs that meet the hypotheses of the third demand, and the wrong engines that its statement shuts out.
#![tactic(auto)]
