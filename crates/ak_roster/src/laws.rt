//! What holds of all histories of the roster.

ghost use Rattle.ak_roster.specs.Laws as law;

use crate::grant::Grant;

/// An answer is a function of what stands before it in the history.
pub fn answers_follow()
    ensures launches { law.OneLaunch }
    ensures look_ups { law.OneLookUp }
{}

/// The numbers of teams rise, and a team that is gone never runs again.
pub fn no_team_returns()
    ensures rising { law.NumbersRise }
    ensures gone { law.NoTeamReturns }
{}

/// Of two running teams the later one has another path where its mode is single, and another signature where it
/// is exclusive.
pub fn modes_hold()
    ensures { law.ModesHold }
{}

/// A look-up gives the least running team that fits.
pub fn the_least_is_found()
    ensures { law.LeastIsFound }
{}

/// The limits of a run hold in every history, and no thread has two entries `Door` of a looper.
pub fn limits_hold()
    ensures limits { law.LimitsHold }
    ensures doors { law.DoorsAreGivenOnce }
{}

/// The threads that have a part of a looper's door that tells its threads are main, the looper, the one that the
/// door names as its team's own, the keeper, and just those by which the list has an entry `Door` of it. A thread
/// that is none of these four, and whose own entries have none of that door, is a stranger to it, as `grant` asks.
pub fn holders_are_told()
    ensures holders { law.HoldersAreTold }
    ensures strangers { law.StrangersAreTold }
{}

/// What a seat at the roster's lock knows of its own entries tells whether its thread is a stranger to a door, as
/// `grant` asks: where it is none of the four, and none of the entries at its own places is of that door.
pub fn seats_tell_strangers<D: Grant>()
    ensures entries { law.EntriesTellPlain D.Object }
    ensures strangers { law.SeatsAreStrangers D.Object }
{}

/// The loopers of a team, by the numbers from its first one on, were started, and have that first one as their team's
/// own. So it is of each team that runs, and of each launch that started one. A looper whose team's own one is among
/// those of a launch is itself among them, and its own one is the first of them.
pub fn loopers_are_of_their_teams()
    ensures teams { law.TeamsHaveLoopers }
    ensures launches { law.LaunchesHaveLoopers }
    ensures owns { law.OwnsStayInTeams }
{}

/// What a name is compared with is what stands after the last slash of a path.
pub fn last_parts_are_so()
    ensures { law.LastPartIsSo }
{}
