//! What holds of all sessions.

ghost use Rattle.ak_session.specs.Ready as law;

/// A session that is ready stands with no step, from its clock's time on.
pub fn ready_sessions_stand()
    ensures { law.ReadySessionsStand }
{}
