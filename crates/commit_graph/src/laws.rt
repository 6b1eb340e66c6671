//! Laws, for proofs above: call one where a proof needs it. None does anything.

ghost use Rattle.commit_graph.specs.Commits.{HasOneSpelling};
ghost use Rattle.commit_graph.specs.Standing.{CommitsFollow};

use table_root::law_of_databases;

/// Two commits with the same bytes are one.
pub fn law_of_commits()
    ensures { HasOneSpelling }
{}

/// An address stands for one commit, and commits that stand do so together and when more is found.
pub fn law_of_standing_commits()
    ensures { CommitsFollow }
{
    law_of_databases();
}
