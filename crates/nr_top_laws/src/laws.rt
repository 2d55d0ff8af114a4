//! Laws of runs of the program.

ghost use Rattle.nr_top_laws.specs.CommandStatuses.{ServedCommandsHaveStatuses};
ghost use Rattle.nr_top_laws.specs.GatewayStatuses.{GatewayLinkFaults, GatewaysHaveStatuses};
ghost use Rattle.nr_top_laws.specs.Logs.{MadeLogs, ReadLogs};
ghost use Rattle.nr_top_laws.specs.NumberedStatuses.{NumberedLinesAreRead, NumberedStatusesHaveCauses};
ghost use Rattle.nr_top_laws.specs.ServerStatuses.{ServersHaveStatuses};
ghost use Rattle.nr_top_laws.specs.StatusCauses.{LinesAreRead, StatusesHaveCauses};

/// A command of a client has status 0, 2, 6, 7, 10 or 11, or 4 and its server ended its stream, if its run is a side of a matched link, the server of
/// which keeps its law with each Wrote in full, a plain server with a sane first tree answers its calls, and no fault count rises. It is not 4 if the
/// server owes nothing (`OwesNothing` of nr_service_laws).
pub fn served_commands_have_statuses()
    ensures { ServedCommandsHaveStatuses }
{}

/// A server whose complete input is a configuration of at most 16777216 bytes has status 0 or 2, if no fault count rises: of the input, of the output, of
/// standard error, of the acceptor.
pub fn servers_have_statuses()
    ensures { ServersHaveStatuses }
{}

/// A gateway whose complete input is a configuration of a gateway of at most 16777216 bytes has status 0 or 2, if no fault count rises: of the input, of
/// the output, of standard error, of the acceptor, of the dialer (`statuses`). It has status 3 only if the count of the acceptor or of the dialer rose
/// (`faults`).
pub fn gateways_have_statuses<O, C>()
    ensures statuses { GatewaysHaveStatuses O C }
    ensures faults { GatewayLinkFaults O C }
{}

/// Whatever the server of a command of a client does, the status has its cause (`causes`): 3 only if the dialer's count of faults or of lost links rose;
/// 4 only if no known byte of the link is left and a call was open; 5 only if the client's side has ended, or a call was answered with a bad reply; 6
/// only if a call was answered with a reply that refuses it, or MNT with a status other than MNT3_OK; 7 only if a call was answered with a reply that has
/// a status other than NFS3_OK; 8 only if one was answered with ERR_CHUNK or ERR_VERS; 9 only if a count of faults rose: of the input, of the output, of
/// standard error; 10 only if the command's path is bad at that offset; 11 only if a limit was passed. It is never 1 (`lines`).
pub fn statuses_have_causes()
    ensures causes { StatusesHaveCauses }
    ensures lines { LinesAreRead }
{}

/// The same of a command of a client with a number, which says at most 16 tries: 3 only if the dialer's count of faults rose; 4 only if the link was lost
/// once more after all tries; 5, 6, 7, 8, 9, 10 and 11 only for the causes that `statuses_have_causes` names, by the history that its caller has seen and the
/// calls of its own that were answered (`causes`). It is never 1 (`lines`).
pub fn numbered_statuses_have_causes()
    ensures causes { NumberedStatusesHaveCauses }
    ensures lines { NumberedLinesAreRead }
{}

/// What a drill with `--log` printed is the text of the capture of its run if the status is 0: of a script that was read (`read`), and
/// of one that was made from a seed (`made`). It is read back as that capture, if the clients of the script have no numbers.
pub fn logs_are_read_back<O, C>()
    ensures read { ReadLogs O C }
    ensures made { MadeLogs O C }
{}
