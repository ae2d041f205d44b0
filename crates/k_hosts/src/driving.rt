//! The calls of a host as tests make them, each in a function that promises nothing, so that a test of many calls is proved quickly.
use k_chronicle::{Freed, Host, HostError};
use k_types::{Event, Op, Pid, Reply, SharedId};

pub(crate) fn operate(host: &mut Host, pid: Pid, op: &Op) -> Result<Event, HostError> {
    host.operate(pid, op)
}

pub(crate) fn local(host: &mut Host, pid: Pid, op: &Op) -> Result<Option<Reply>, HostError> {
    host.local(pid, op)
}

pub(crate) fn publish(host: &mut Host, pid: Pid) -> Result<(), HostError> {
    host.publish(pid)
}

pub(crate) fn begin_heap(host: &mut Host, pid: Pid) -> Result<Event, HostError> {
    host.begin_heap(pid)
}

pub(crate) fn mark_heap(host: &mut Host, pid: Pid) -> Result<(), HostError> {
    host.mark_heap(pid)
}

pub(crate) fn end_heap(host: &mut Host, pid: Pid) -> Result<Event, HostError> {
    host.end_heap(pid)
}

pub(crate) fn settle_heap(host: &mut Host, pid: Pid) -> Result<(), HostError> {
    host.settle_heap(pid)
}

pub(crate) fn begin_kernel(host: &mut Host, pid: Pid) -> Result<Event, HostError> {
    host.begin_kernel(pid)
}

pub(crate) fn mark_kernel(host: &mut Host) -> Result<(), HostError> {
    host.mark_kernel()
}

pub(crate) fn end_kernel(host: &mut Host) -> Result<Event, HostError> {
    host.end_kernel()
}

pub(crate) fn settle_kernel(host: &mut Host) -> Result<(), HostError> {
    host.settle_kernel()
}

pub(crate) fn exit(host: &mut Host, pid: Pid) -> Result<Event, HostError> {
    host.exit(pid)
}

pub(crate) fn absorb(host: &mut Host, id: SharedId) -> Result<Event, HostError> {
    host.absorb(id)
}

pub(crate) fn collect(host: &mut Host, pid: Pid, freed: &mut Freed) -> Result<Event, HostError> {
    host.collect(pid, freed)
}

pub(crate) fn collect_kernel(
    host: &mut Host,
    pid: Pid,
    freed: &mut Freed,
) -> Result<Event, HostError> {
    host.collect_kernel(pid, freed)
}

pub(crate) fn charge(host: &Host, pid: Pid) -> Option<u64> {
    host.charge(pid)
}

pub(crate) fn meet(host: &mut Host, pid: Pid) -> Result<(), HostError> {
    host.meet(pid)
}
