// Laws of queue messages: what an accepted message holds, which bytes decide, and which refusals its reader gives. No code.
#![tactic(auto)]
